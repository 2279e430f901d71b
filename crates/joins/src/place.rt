// Where a rule of a joined book stands: the book, and the rule's number there.
#[derive(Clone, Copy)]
pub enum Place {
    First(usize),
    Second(usize),
}
