// How many rules of each set the same eight rows keep, and how many times a row was held against a row of a pattern.
// With a set's name and a number as arguments, so many rules of that set are looked at by the plain walk over the doubled
// pattern instead.
#![tactic(auto)]

mod sets;

use rules::book::Book;
use search::find::{Scratch, find_break, look_plainly};
use search::row::Row;
use search::spot::Spot;
use search::table::Table;
use sets::{RULES, SETS, Set, words_of};
use sheets::sheet::Sheet;
use std::env;

fn main(rt: HostRuntime) -> anyhow::Result<()> {
    run(&rt)
}

// The rows are all different: columns 0 and 7 have two numbers each, column 1 goes by column 0, column 3 has one number.
fn row(n: u8) -> Row {
    let n = u32::from(n);
    Row {
        entries: [
            n % 2,
            10 + n % 2,
            n,
            5,
            n % 4,
            100 + n * 3 % 8,
            n / 2,
            n / 2 % 2,
        ],
    }
}

fn run(rt: &HostRuntime) -> anyhow::Result<()> {
    let mut words = env::args(rt)?.skip(1);
    let set = words.next().and_then(|word| set_of(word.as_str()));
    let rules = words
        .next()
        .map(|word| word.as_str().parse::<u16>())
        .transpose()?
        .unwrap_or(0);
    if let Some((name, set)) = set {
        return print_set(rt, name, set, rules, |relation, sheet, rule, scratch| {
            look_plainly(relation, sheet, rule, scratch)
        });
    }
    for (name, set) in SETS {
        print_set(rt, name, set, RULES, |relation, sheet, rule, scratch| {
            find_break(relation, sheet, rule, 1, scratch)
        })?;
    }
    Ok(())
}

// The set with this name.
fn set_of(word: &str) -> Option<(&'static str, Set)> {
    SETS.into_iter().find(|(name, _)| *name == word)
}

// How many rules of a set the rows keep, when each is looked at so.
fn print_set<F>(rt: &HostRuntime, name: &str, set: Set, rules: u16, look: F) -> anyhow::Result<()>
where
    F: Fn(&Table<'_>, &Sheet<'_>, usize, &mut Scratch) -> Option<Spot>,
    requires { F.IsAlwaysCallable look }
{
    let words = words_of(rt.alloc(), set, rules)?;
    let sheet = Sheet::open(words.as_slice());
    let rows = [0, 1, 2, 3, 4, 5, 6, 7].map(row);
    let relation = Table::new(&rows, 8);
    let mut scratch = Scratch::new();
    // a loop: of a filter whose closure changes the scratch the check does not show that it may go on
    let mut kept: usize = 0;
    for rule in 0..sheet.count() {
        if look(&relation, &sheet, rule, &mut scratch).is_none() {
            kept += 1;
        }
    }
    println!(rt;
        "{name}: {kept} of {} rules kept, {} row tests",
        sheet.count(),
        scratch.tests()
    )?;
    Ok(())
}
