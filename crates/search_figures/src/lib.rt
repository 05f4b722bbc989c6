//! Figures of a search worked out by hand, proved of the definitions that the contracts cite.
#![tactic(auto)]

ghost use Rattle.search_figures.specs.Searched.{Searched};

/// Its contract is the table of a search's worked figures, so that a check asks for each of them.
pub fn searched_figures() -> u8
    ensures { Searched }
{
    0
}
