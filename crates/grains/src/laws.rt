//! Theorems on the operations: the contract of each function here names theorems, so that a check demands their proofs.
ghost use Rattle.grains.specs.Narrowing.{ProductNarrows, DifferenceNarrows, QuotientNarrows, CommonNarrows, OperationsStayIntervals};
ghost use Rattle.grains.specs.Points.{ProductHolds, DifferenceHolds, DivisorApart, QuotientHolds, CommonHolds};

/// On narrower intervals a product, a difference and a quotient have an answer where they have one on wider intervals, and it lies
/// within theirs. A common part of narrower intervals lies within that of the wider ones, which then have one.
pub fn narrowing_stands() -> u8
    ensures product { ProductNarrows }
    ensures difference { DifferenceNarrows }
    ensures quotient { QuotientNarrows }
    ensures common { CommonNarrows }
{
    0
}

/// The answer of each operation contains what the operation makes of the points of its operands.
pub fn containment_stands() -> u8
    ensures product { ProductHolds }
    ensures difference { DifferenceHolds }
    ensures apart { DivisorApart }
    ensures quotient { QuotientHolds }
    ensures common { CommonHolds }
{
    0
}

/// The answer of a product, a difference and a quotient of intervals has its ends in order and in the span; a common part has its
/// ends in order.
pub fn answers_stay_intervals() -> u8
    ensures { OperationsStayIntervals }
{
    0
}
