// The merchant's question: which targets follow from the season's book?
#![tactic(auto)]

mod help;
mod input;

use anyhow::ensure;
use help::print_help;
use input::{read_file, read_input};
use report::answer::answer;
use std::env;
use std::io::Write;
use summary::summary::summarize;

const TOO_MANY: &str = "too many words after the program's name: see 'bale help'";

fn main(rt: HostRuntime) -> anyhow::Result<()> {
    run(&rt)
}

// With no file the text is read from standard input.
fn run(rt: &HostRuntime) -> anyhow::Result<()> {
    let mut words = env::args(rt)?.skip(1);
    let first = words.next();
    let second = words.next();
    ensure!(words.next().is_none(), TOO_MANY);
    let Some(word) = first else {
        return report_on(rt, read_input(rt)?.as_slice());
    };
    let Some(path) = second else {
        return run_word(rt, word.as_str());
    };
    ensure!(word.as_str() == "check", TOO_MANY);
    check(rt, read_file(rt, path.as_str())?.as_slice())
}

fn run_word(rt: &HostRuntime, word: &str) -> anyhow::Result<()> {
    match word {
        "help" => print_help(rt),
        "check" => check(rt, read_input(rt)?.as_slice()),
        path => report_on(rt, read_file(rt, path)?.as_slice()),
    }
}

// The report on a text, or the line of a refusal.
fn report_on(rt: &HostRuntime, text: &[u8]) -> anyhow::Result<()> {
    print_bytes(rt, answer(rt.alloc(), text)?)
}

// What a text is read as.
fn check(rt: &HostRuntime, text: &[u8]) -> anyhow::Result<()> {
    print_bytes(rt, summarize(rt.alloc(), text)?)
}

fn print_bytes(rt: &HostRuntime, bytes: Vec<u8>) -> anyhow::Result<()> {
    rt.stdout().write_all(bytes.as_slice())?;
    Ok(())
}
