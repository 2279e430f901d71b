// Hand-made relations, each with what a search in it comes to.
#![tactic(auto)]

mod saying;

use rules::term::BASE;
use saying::{print_search, print_turns};
use search::row::Row;

// The words of the variables 0 to 4.
const A: u32 = BASE;

const B: u32 = BASE + 1;

const C: u32 = BASE + 2;

const D: u32 = BASE + 3;

const E: u32 = BASE + 4;

const TOP: u32 = u32::MAX;

fn main(rt: HostRuntime) -> anyhow::Result<()> {
    run(&rt)
}

fn run(rt: &HostRuntime) -> anyhow::Result<()> {
    print_functional(rt)?;
    print_equality(rt)?;
    print_long(rt)?;
    print_many(rt)?;
    print_rounds(rt)
}

fn row(a: u32, b: u32) -> Row {
    Row {
        entries: [a, b, 0, 0, 0, 0, 0, 0],
    }
}

// The first column decides the second.
fn print_functional(rt: &HostRuntime) -> anyhow::Result<()> {
    let words = [2, 1, 1, 1, A, B, 1, A, 1, B];
    print_search(rt, "no rows", &words, 2, &[])?;
    print_search(rt, "one row", &words, 2, &[row(1, 7)])?;
    print_search(rt, "a row twice", &words, 2, &[row(1, 7), row(1, 7)])?;
    print_search(
        rt,
        "one left number, two right ones",
        &words,
        2,
        &[row(1, 7), row(2, 7), row(1, 8)],
    )?;
    print_search(
        rt,
        "least and greatest numbers",
        &words,
        2,
        &[row(0, 0), row(0, TOP)],
    )?;
    print_search(
        rt,
        "greatest numbers kept",
        &words,
        2,
        &[row(TOP, TOP), row(0, TOP)],
    )?;
    print_search(rt, "another width", &words, 3, &[row(1, 7), row(1, 8)])?;
    print_search(rt, "a width past eight", &words, 9, &[row(1, 7), row(1, 8)])
}

// Rows there and back have equal ends; ends of two steps are equal; what is never to stand.
fn print_equality(rt: &HostRuntime) -> anyhow::Result<()> {
    let back = [2, 1, 2, 2, A, B, B, A, 0, 1, A, B];
    print_search(rt, "two variables on one number", &back, 2, &[row(3, 3)])?;
    print_search(rt, "there and back", &back, 2, &[row(1, 2), row(2, 1)])?;
    let steps = [2, 1, 2, 2, A, B, B, C, 0, 1, A, C];
    print_search(
        rt,
        "two rows of a pattern on one row",
        &steps,
        2,
        &[row(5, 5)],
    )?;
    print_search(rt, "and then on two", &steps, 2, &[row(5, 5), row(5, 6)])?;
    let never = [2, 1, 2, 1, 1, 2, 0, 1, 3, 4];
    print_search(rt, "constants that match", &never, 2, &[row(1, 2)])?;
    print_search(rt, "constants that do not", &never, 2, &[row(1, 3)])
}

// Four steps from the first column to the last.
fn print_long(rt: &HostRuntime) -> anyhow::Result<()> {
    let words = [2, 1, 1, 4, A, B, B, C, C, D, D, E, 1, A, 1, E];
    let chain = [row(1, 2), row(2, 3), row(3, 4), row(4, 5)];
    print_search(rt, "four rows, one way", &words, 2, &chain)?;
    let fork = [row(1, 2), row(2, 3), row(3, 4), row(4, 5), row(4, 6)];
    print_search(rt, "four rows, two ways", &words, 2, &fork)
}

// More rows than a table has room for.
fn print_many(rt: &HostRuntime) -> anyhow::Result<()> {
    let words = [2, 1, 1, 1, A, B, 1, A, 1, B];
    let kept = [0, 1, 2, 3, 4, 5, 6, 7, 8, 9].map(|n| row(n, 7));
    print_search(rt, "ten rows kept", &words, 2, &kept)?;
    let mut broken = kept;
    broken[9] = row(4, 8);
    print_search(rt, "ten rows", &words, 2, &broken)
}

// Of two rules the second is broken.
fn print_rounds(rt: &HostRuntime) -> anyhow::Result<()> {
    let words = [2, 2, 1, 1, A, B, 1, A, 1, B, 1, 1, A, B, 1, B, 1, A];
    let rows = [row(1, 7), row(2, 7)];
    print_turns(rt, &words, &rows, 0, 0)?;
    print_turns(rt, &words, &rows, 0, 1)?;
    print_turns(rt, &words, &rows, 0, 2)?;
    print_turns(rt, &words, &rows, 1, 1)?;
    print_turns(rt, &words, &rows, 2, 1)?;
    print_turns(rt, &words, &rows, usize::MAX, 1)?;
    print_turns(rt, &words, &rows, 0, usize::MAX)
}
