// How an advance stops and how a trial ends: plain types with no clause, so that definitions in specs/ may name them.

// Why an advance stopped: it made the merges it was given, no open spot was left, or two constants met.
#[derive(Clone, Copy, PartialEq, Eq, Debug)]
pub enum Stop {
    Spent,
    Rest,
    Clash,
}

// What a finished trial says of its target; void where there was none to speak of.
#[derive(Clone, Copy, PartialEq, Eq, Debug)]
pub enum Verdict {
    Void,
    Follows,
    Fails,
}
