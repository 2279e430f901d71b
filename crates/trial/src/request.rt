// A call to make on a trial: a plain type with no clause, so that definitions in specs/ may name it.
use rules::book::Book;

// To start on a rule of a lent book of targets, by its number, or to advance by so many merges.
#[derive(Drop)]
pub enum Request<'a, T: Book> {
    Start(&'a T, usize),
    Advance(usize),
}
