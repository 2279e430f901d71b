// Where a rule is broken.

// The rule's number in its book, the number of the pair, and the rows: those of the first placing in the order of the
// pattern, then for a functional rule those of the second; the others are 0. The sides of the pair are two numbers.
#[derive(Clone, Copy)]
pub struct Spot {
    pub rule: usize,
    pub pair: usize,
    pub places: [usize; 8],
    pub one: u32,
    pub other: u32,
}
