// Why a text is refused. Plain types with no clause, so that definitions in specs/ may name them.

#[derive(Clone, Copy, PartialEq, Eq, Debug)]
pub enum Cause {
    Byte = 1,
    Form,
    Count,
    Unknown,
    Room,
    Lines,
}

// The cause, and the number of the line, or 0 for the text as a whole.
#[derive(Clone, Copy, PartialEq, Eq, Debug)]
pub struct ReadFault {
    pub cause: Cause,
    pub line: usize,
}
