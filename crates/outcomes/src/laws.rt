//! The law of searches: a contract here names the theorem, so that a check demands its proof.
ghost use Rattle.outcomes.specs.Promise.{EveryHistoryKept};

/// Every list of calls leaves a search with what `Kept` says, over every method and rule with the laws of their traits.
pub fn histories_keep() -> u8
    ensures { EveryHistoryKept }
{
    0
}
