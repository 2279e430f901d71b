// What comes of a case, in a line.
use rules::book::Book;
use rules::refusal::Refusal;
use std::io;

// Why the check or the question refuses, if it does, and what the book opens as.
pub fn print_book<F: Into<Refusal>, B: Book>(
    rt: &HostRuntime,
    case: &str,
    checked: Result<(), F>,
    book: &B,
) -> io::Result<()> {
    if let Err(fault) = checked {
        let refusal: Refusal = fault.into();
        println!(rt; "{case}: {refusal}")?;
    }
    print_size(rt, case, book)
}

// The width and the count of a book, the same whatever book it is.
fn print_size<B: Book>(rt: &HostRuntime, case: &str, book: &B) -> io::Result<()> {
    let width = book.width();
    let count = book.count();
    let past = if book.kind(count).is_none() {
        "none"
    } else {
        "some"
    };
    println!(rt; "{case}: width {width}, {count} rules, {past} past the end")
}
