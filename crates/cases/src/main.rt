// Works eight trials through: for each the book, the target, each call's answer, the verdict, the merges and, where the
// target fails, the counter rows. Variables and symbols are written $0, $1, ..; the second copy's symbols begin at $32.
#![tactic(auto)]

mod rules_told;
mod trial_told;
mod words;

use keys::key_list::KeyList;
use rules::book::Book;
use rules_told::print_rules;
use sheets::sheet::Sheet;
use std::io;
use trial::replay::replay;
use trial::request::Request;
use trial_told::{print_outcome, print_reply};

// What the constants 0 and 1 of the weighings are called; in the other cases a constant goes by its number.
const WEIGHTS: [&str; 2] = ["press", "dock"];

fn main(rt: HostRuntime) -> anyhow::Result<()> {
    run(&rt)
}

fn run(rt: &HostRuntime) -> anyhow::Result<()> {
    weighings(rt)?;
    others(rt)
}

fn weighings(rt: &HostRuntime) -> anyhow::Result<()> {
    let press = words::press_key();
    let agree = words::weights_agree();
    let weights = words::press_to_press();
    let docks = words::press_to_dock();
    println!(rt; "1. one press weight")?;
    on_sheets(rt, &WEIGHTS, &press, &weights, &[1, 1])?;
    println!(rt; "2. the dock weight is left open")?;
    on_sheets(rt, &WEIGHTS, &press, &docks, &[5, 5])?;
    println!(rt; "3. weights that agree")?;
    on_sheets(rt, &WEIGHTS, &agree, &docks, &[0, 2, 2])?;
    println!(rt; "4. agreement gives no key")?;
    on_sheets(rt, &WEIGHTS, &agree, &press, &[1])
}

fn others(rt: &HostRuntime) -> anyhow::Result<()> {
    println!(rt; "5. two constants for one")?;
    on_sheets(rt, &[], &words::one_key(), &words::two_constants(), &[5])?;
    println!(rt; "6. a cycle of two")?;
    let cycle = words::there_and_back();
    on_sheets(rt, &[], &cycle, &words::cycle_with_loop(), &[1])?;
    println!(rt; "7. one loop says nothing of cycles")?;
    on_sheets(rt, &[], &words::one_loop(), &cycle, &[1])?;
    println!(rt; "8. chained keys")?;
    let chained = words::chained_keys();
    let ends = words::first_to_last();
    let book = KeyList::open(3, &chained);
    let targets = KeyList::open(3, &ends);
    work(rt, &[], &book, &targets, &[1, 1, 1])
}

fn on_sheets(
    rt: &HostRuntime,
    names: &[&str],
    book: &[u32],
    targets: &[u32],
    limits: &[usize],
) -> anyhow::Result<()> {
    let book = Sheet::open(book);
    let targets = Sheet::open(targets);
    work(rt, names, &book, &targets, limits)
}

// A start on the first rule of the targets, these advances, and a finish.
fn work<B: Book, T: Book>(
    rt: &HostRuntime,
    names: &[&str],
    book: &B,
    targets: &T,
    limits: &[usize],
) -> anyhow::Result<()> {
    print_rules(rt, "book", names, book)?;
    print_rules(rt, "target", names, targets)?;
    let mut requests = Vec::new(rt.alloc());
    requests.push(Request::Start(targets, 0))?;
    for n in limits {
        requests.push(Request::Advance(*n))?;
    }
    let replayed = replay(rt.alloc(), book, requests.as_slice(), true)?;
    for (request, reply) in requests.iter().zip(replayed.replies.iter()) {
        print_reply(rt, request, *reply)?;
    }
    print_outcome(rt, names, &replayed.outcome)?;
    Ok(())
}
