//! What was found for one method and one rule.
use std::fmt;
use trials::violations::Violations;

#[derive(Clone, Copy, Default)]
pub(crate) struct Tally {
    pub started: u32,
    pub refused: u32,
    pub calls: u32,
    pub splits: u64,
    pub settled: u32,
    pub corners: u32,
    pub violations: Violations,
}

impl fmt::Display for Tally {
    fn fmt<W: fmt::Write>(&self, f: &mut fmt::Formatter<W>) -> fmt::Result {
        let started = self.started;
        let refused = self.refused;
        let calls = self.calls;
        let splits = self.splits;
        let settled = self.settled;
        let corners = self.corners;
        let violations = self.violations;
        write!(
            f,
            "{started} started, {refused} refused, {calls} calls, {splits} splits, {settled} settled, {corners} corners checked, {violations} violations"
        )
    }
}
