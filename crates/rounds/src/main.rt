// The edges of reports and of refusal lines: each case with what comes of it.
#![tactic(auto)]

mod lines;
mod making;
mod saying;
mod texts;

use making::{long_text, many_targets};
use saying::{print_report, print_round};

fn main(rt: HostRuntime) -> anyhow::Result<()> {
    run(&rt)
}

fn run(rt: &HostRuntime) -> anyhow::Result<()> {
    print_reports(rt)?;
    print_rooms(rt)?;
    print_refusals(rt)?;
    lines::print_lines(rt)?;
    Ok(())
}

fn print_reports(rt: &HostRuntime) -> anyhow::Result<()> {
    print_report(rt, "the press and the dock", texts::LISTING)?;
    print_report(rt, "no targets", texts::NO_TARGETS)?;
    print_report(rt, "two constants for one", texts::CLASH)?;
    print_report(rt, "a symbol that is a constant", texts::MERGED)?;
    print_report(rt, "a pair of two constants", texts::APART)?;
    Ok(())
}

// Outputs around the length of a report: in its first line, in a verdict, in a row.
fn print_rooms(rt: &HostRuntime) -> anyhow::Result<()> {
    for room in [0, 9, 10, 24, 25, 31, 32, 43, 44, 77, 78, 79, 80, 100] {
        print_round(rt, "the press and the dock", texts::LISTING, room, 4096)?;
    }
    let many = many_targets(rt.alloc(), 256)?;
    for room in [11, 12, 28, 29, 4767, 4768, 4769, 415756] {
        print_round(rt, "256 targets", many.as_slice(), room, 4096)?;
    }
    Ok(())
}

// Each refusal of the reader.
fn print_refusals(rt: &HostRuntime) -> anyhow::Result<()> {
    print_round(rt, "a tab", b"width 1\nrules\t0\n", 100, 4096)?;
    print_round(rt, "a wrong keyword", b"with 1\n", 100, 4096)?;
    print_round(rt, "width 9", b"width 9", 100, 4096)?;
    print_round(rt, "a variable not in the rows", texts::UNKNOWN, 100, 4096)?;
    print_round(rt, "few places", texts::LISTING, 100, 8)?;
    print_round(rt, "no places", texts::LISTING, 100, 0)?;
    print_round(rt, "width 8 alone", b"width 8", 100, 4096)?;
    print_round(rt, "no text", b"", 100, 4096)?;
    let long = long_text(rt.alloc(), 65537)?;
    print_round(rt, "65,537 bytes", long.as_slice(), 100, 4096)?;
    let most = long_text(rt.alloc(), 65536)?;
    print_round(rt, "65,536 bytes", most.as_slice(), 100, 4096)?;
    Ok(())
}
