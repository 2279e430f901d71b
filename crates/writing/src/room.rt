// Why a report is refused. A plain type with no clause, so that definitions in specs/ may name it.

// The output is too short: the number, from 1, of the target whose lines do not fit, or 0 for the first line.
#[derive(Clone, Copy, PartialEq, Eq, Debug)]
pub struct TooShort {
    pub place: usize,
}
