// Reads a text on standard input, and says what was read or why and where it is refused.
#![tactic(auto)]

use reader::desk::Lent;
use reader::fault::ReadFault;
use rules::book::Book;
use rules::refusal::Refusal;
use sheets::sheet::Sheet;
use spelling::spelled::read;
use std::io;
use std::io::{Read, Write};
use summary::putting::push_name;
use summary::quoting::{line_numbered, push_shown};
use summary::telling::push_books;
use text::list::CAPACITY;
use text::words::Name;
use writing::naming::Naming;

// A line is shown in parts of so many bytes, and names are told one by one, so that little is held at a time.
const PART: usize = 256;

// The refusal, and the line that it names.
fn refuse(rt: &HostRuntime, text: &[u8], fault: ReadFault) -> io::Result<()> {
    rt.println(Refusal::from(fault))?;
    if fault.line > 0 {
        show(rt, line_numbered(text, fault.line).unwrap_or(b""))?;
    }
    Ok(())
}

// A line, as it is shown.
fn show(rt: &HostRuntime, line: &[u8]) -> io::Result<()> {
    let mut shown = Vec::new(rt.alloc());
    for part in line.chunks(PART) {
        shown.clear();
        push_shown(&mut shown, part)?;
        rt.stdout().write_all(shown.as_slice())?;
    }
    println!(rt; "")
}

// The counts, the constants by number, and the line on which each rule and each target begins.
fn tell<B: Book>(rt: &HostRuntime, naming: &Naming, book: &B, targets: &B) -> io::Result<()> {
    println!(rt;
        "width {}, {} rules, {} targets, {} constants",
        book.width(),
        book.count(),
        targets.count(),
        naming.names.len()
    )?;
    let mut told = Vec::new(rt.alloc());
    for (i, name) in naming.names.iter().enumerate() {
        told.clear();
        push_name(&mut told, naming.text, i, *name)?;
        rt.stdout().write_all(told.as_slice())?;
    }
    told.clear();
    push_books(&mut told, book, targets)?;
    rt.stdout().write_all(told.as_slice())
}

fn main(rt: HostRuntime) -> io::Result<()> {
    let mut text = Vec::new(rt.alloc());
    rt.stdin().read_to_end(&mut text)?;
    let text = text.as_slice();
    let mut rules = [0u32; CAPACITY];
    let mut targets = [0u32; CAPACITY];
    let mut names = [Name::NONE; CAPACITY];
    let mut lent = Lent {
        rules: &mut rules,
        targets: &mut targets,
        names: &mut names,
    };
    match read(text, &mut lent) {
        Ok(sizes) => {
            let naming = Naming {
                text,
                names: &names[..sizes.names.min(CAPACITY)],
            };
            tell(&rt, &naming, &Sheet::open(&rules), &Sheet::open(&targets))
        }
        Err(fault) => refuse(&rt, text, fault),
    }
}
