//! Theorems on rules and boxes: the contract of each function here names theorems, so that a check demands their proofs.
ghost use Rattle.partition.specs.Boxing.{BoxNarrower, BoxCounts, FixingNarrows};
ghost use Rattle.partition.specs.Choosing.{WidestGreatest, HeaviestGreatest};

/// A place that a built rule answers has the greatest width, or weight, of all wide places, and none before it has as much.
pub fn rules_stand() -> u8
    ensures widest { WidestGreatest }
    ensures heaviest { HeaviestGreatest }
{
    0
}

/// A box is narrower than its system, has as many wide entries less as it has marks, and with one more wide entry fixed it is a
/// narrower box with one wide entry less.
pub fn boxes_stand() -> u8
    ensures narrower { BoxNarrower }
    ensures counts { BoxCounts }
    ensures fixing { FixingNarrows }
{
    0
}
