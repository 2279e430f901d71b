// Why a call on a trial is refused: a plain type with no clause, so that definitions in specs/ may name it.

// Start: the trial is not blank; the book of targets has no rule of this number; its width is not the book's. Advance: the
// trial is blank; the book has another width than the target.
#[derive(Clone, Copy, PartialEq, Eq, Debug)]
pub enum TrialFault {
    NotBlank,
    NoRule(usize),
    WidthsDiffer,
    StillBlank,
}
