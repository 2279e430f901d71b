// Sheets at their edges.
use crate::making::plain_sheet;
use crate::saying::print_book;
use rules::term::BASE;
use sheets::sheet::{Sheet, check};
use std::io;

// The words of the variables 0 and 1.
const A: u32 = BASE;

const B: u32 = BASE + 1;

fn print_sheet(rt: &HostRuntime, case: &str, words: &[u32]) -> io::Result<()> {
    print_book(rt, case, check(words), &Sheet::open(words))
}

pub fn print_ranges(rt: &HostRuntime) -> anyhow::Result<()> {
    print_heads(rt)?;
    print_terms(rt)?;
    print_lists(rt)
}

// Widths, kinds and counts of rows.
fn print_heads(rt: &HostRuntime) -> anyhow::Result<()> {
    print_sheet(rt, "no words", &[])?;
    print_sheet(rt, "width 0", &[0, 0])?;
    print_sheet(rt, "width 1", &[1, 0])?;
    print_sheet(rt, "width 8", &[8, 0])?;
    print_sheet(rt, "width 9", &[9, 0])?;
    print_sheet(rt, "no kind 0", &[1, 1, 0, 1, 7, 0, 0])?;
    print_sheet(rt, "no kind 3", &[1, 1, 3, 1, 7, 0, 0])?;
    print_sheet(rt, "no row", &[1, 1, 2, 0, 0, 0])?;
    print_sheet(rt, "five rows", &[1, 1, 2, 5, 7, 7, 7, 7, 7, 0, 0])?;
    Ok(())
}

// The greatest constant and the greatest variable, and what is past them.
fn print_terms(rt: &HostRuntime) -> anyhow::Result<()> {
    print_sheet(
        rt,
        "greatest constant",
        &[1, 1, 2, 1, BASE - 1, 0, 1, BASE - 1, BASE - 1],
    )?;
    print_sheet(
        rt,
        "a constant past it is variable 0",
        &[1, 1, 2, 1, 7, 0, 1, BASE - 1, A],
    )?;
    print_sheet(
        rt,
        "greatest variable",
        &[1, 1, 1, 1, BASE + 31, 1, BASE + 31, 1, BASE + 31],
    )?;
    print_sheet(rt, "a variable past it", &[1, 1, 1, 1, BASE + 32, 0, 0])?;
    Ok(())
}

// Left variables, right variables and pairs.
fn print_lists(rt: &HostRuntime) -> anyhow::Result<()> {
    print_sheet(
        rt,
        "a left variable not in the rows",
        &[1, 1, 1, 1, A, 1, B, 0],
    )?;
    print_sheet(rt, "a constant on the left", &[1, 1, 1, 1, 7, 1, 7, 0])?;
    print_sheet(
        rt,
        "a right variable not in the rows",
        &[1, 1, 1, 1, A, 0, 1, B],
    )?;
    print_sheet(rt, "33 left variables", &[1, 1, 1, 1, A, 33])?;
    print_sheet(rt, "33 pairs", &[1, 1, 2, 1, 7, 0, 33])?;
    print_sheet(rt, "equality with a left count", &[1, 1, 2, 1, A, 1, A, 0])?;
    print_sheet(
        rt,
        "words after the last rule",
        &[1, 1, 2, 1, 7, 0, 0, u32::MAX, 9],
    )?;
    Ok(())
}

// The front of a sheet is refused at its length, wherever it is cut.
pub fn print_cuts(rt: &HostRuntime) -> anyhow::Result<()> {
    let words = [2, 2, 1, 1, A, B, 1, A, 1, B, 2, 1, A, 7, 0, 1, A, 7];
    // by its length, since no iterator gives the fronts of a slice
    for cut in 0..words.len() {
        match check(&words[0..cut]) {
            Ok(()) => println!(rt; "cut at {cut}: passes")?,
            Err(fault) => println!(rt; "cut at {cut}: refused at {}", fault.place)?,
        }
    }
    print_sheet(rt, "not cut", &words)?;
    Ok(())
}

pub fn print_counts(rt: &HostRuntime) -> anyhow::Result<()> {
    let most = plain_sheet(rt.alloc(), 256)?;
    print_sheet(rt, "256 rules", most.as_slice())?;
    let more = plain_sheet(rt.alloc(), 257)?;
    print_sheet(rt, "257 rules", more.as_slice())?;
    Ok(())
}
