// What a call on a trial answered: plain types with no clause, so that definitions in specs/ may name them.
use crate::fault::TrialFault;
use law::outcome::Stop;

// It started the trial, or made so many merges, and stopped for a reason.
#[derive(Clone, Copy, PartialEq, Eq, Debug)]
pub enum Done {
    Started,
    Merged(usize, Stop),
}

pub type Reply = Result<Done, TrialFault>;
