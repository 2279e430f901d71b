// What a trial answered, in words.
use crate::rules_told::print_constant;
use rules::book::Book;
use rules::refusal::Refusal;
use rules::term::BASE;
use std::io;
use trial::fault::TrialFault;
use trial::finished::Finished;
use trial::replay::Outcome;
use trial::reply::Done;
use trial::request::Request;

// What was asked of the trial, and what it replied.
pub fn print_reply<T: Book>(
    rt: &HostRuntime,
    request: &Request<'_, T>,
    reply: Result<Done, TrialFault>,
) -> io::Result<()> {
    match request {
        Request::Start(_, _) => print!(rt; "   start: ")?,
        Request::Advance(n) => print!(rt; "   advance by {n}: ")?,
    }
    match reply {
        Ok(Done::Started) => println!(rt; "done"),
        Ok(Done::Merged(made, stop)) => println!(rt; "{made}, {stop}"),
        Err(fault) => rt.println(Refusal::from(fault)),
    }
}

pub fn print_outcome(rt: &HostRuntime, names: &[&str], outcome: &Outcome) -> io::Result<()> {
    match outcome {
        Outcome::Going(_) => println!(rt; "   goes on"),
        Outcome::Finished(finished) => print_finished(rt, names, finished),
    }
}

fn print_finished(rt: &HostRuntime, names: &[&str], finished: &Finished) -> io::Result<()> {
    println!(rt;
        "   finish: {}, merges in all: {}",
        finished.verdict(),
        finished.merges()
    )?;
    for row in 0..finished.rows() {
        print!(rt; "   row")?;
        for number in (0..finished.width()).filter_map(|column| finished.entry(row, column)) {
            print_entry(rt, names, number)?;
        }
        println!(rt; "")?;
    }
    Ok(())
}

// A constant by its name, a symbol by its number.
fn print_entry(rt: &HostRuntime, names: &[&str], number: u32) -> io::Result<()> {
    match number.checked_sub(BASE) {
        None => print_constant(rt, names, number),
        Some(symbol) => print!(rt; " ${symbol}"),
    }
}
