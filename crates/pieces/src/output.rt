// Places for bytes that the caller lends. Plain types with no clause, so that definitions in specs/ may name them.

// The first `used` places are written. Nothing is allocated here, so the caller lends the places; all of them are kept beside
// the count, since a refusal blanks what was written too. A list of text's is no output: it is full at 4,096.
#[derive(Drop)]
pub struct Output<'a> {
    pub places: &'a mut [u8],
    pub used: usize,
}

// What is to be put down does not fit.
#[derive(Clone, Copy, PartialEq, Eq, Debug)]
pub struct Short;
