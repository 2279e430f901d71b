// Joins a sheet and a key list, and lists the book that they make.
#![tactic(auto)]

mod input;

use anyhow::ensure;
use input::{key_list, sheet_words};
use joins::joined::{Joined, check_join};
use keys::key_list::KeyList;
use listing::listing::list_book;
use rules::book::Book;
use rules::refusal::Refusal;
use sheets::sheet::Sheet;
use std::io;

fn main(rt: HostRuntime) -> anyhow::Result<()> {
    run(&rt)
}

fn run(rt: &HostRuntime) -> anyhow::Result<()> {
    let text = io::read_to_string(rt.alloc(), rt.stdin())?;
    let mut lines = text.as_str().lines();
    let first = lines.next().unwrap_or("");
    let second = lines.next().unwrap_or("");
    ensure!(
        lines.all(|line| line.trim().is_empty()),
        "a sheet and a key list are two lines: after line 2 there is more"
    );
    list(rt, first, second)
}

fn list(rt: &HostRuntime, first: &str, second: &str) -> anyhow::Result<()> {
    let words = sheet_words(rt.alloc(), first)?;
    let words = words.as_slice();
    if let Err(fault) = sheets::sheet::check(words) {
        return print_refusal(rt, fault.into());
    }
    let sheet = Sheet::open(words);
    if second.trim().is_empty() {
        rt.print(list_book(rt.alloc(), &sheet)?)?;
        return print_sum(rt, sheet.width(), sheet.count(), None);
    }
    let (width, bytes) = key_list(rt.alloc(), second)?;
    let bytes = bytes.as_slice();
    if let Err(fault) = keys::checking::check(width, bytes) {
        return print_refusal(rt, fault.into());
    }
    let keys = KeyList::open(width, bytes);
    if let Err(fault) = check_join(&sheet, &keys) {
        return print_refusal(rt, fault.into());
    }
    let joined = Joined {
        first: &sheet,
        second: &keys,
    };
    rt.print(list_book(rt.alloc(), &joined)?)?;
    print_sum(rt, sheet.width(), sheet.count(), Some(keys.count()))
}

fn print_sum(
    rt: &HostRuntime,
    width: usize,
    sheet: usize,
    keys: Option<usize>,
) -> anyhow::Result<()> {
    let noun = if sheet == 1 { "rule" } else { "rules" };
    print!(rt; "width {width}: {sheet} {noun} from the sheet")?;
    if let Some(n) = keys {
        print!(rt; ", {n} from the key list")?;
    }
    println!(rt; "")?;
    Ok(())
}

fn print_refusal(rt: &HostRuntime, refusal: Refusal) -> anyhow::Result<()> {
    println!(rt; "{refusal}")?;
    Ok(())
}
