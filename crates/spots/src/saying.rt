// What a search comes to, in words.
use search::find::{Scratch, find_break};
use search::row::Row;
use search::spot::Spot;
use search::table::Table;
use sheets::sheet::Sheet;

fn print_found(rt: &HostRuntime, found: Option<Spot>) -> anyhow::Result<()> {
    match found {
        Some(spot) => {
            print!(rt; "rule {}, pair {}, places", spot.rule, spot.pair)?;
            for place in spot.places {
                print!(rt; " {place}")?;
            }
            println!(rt; ": {} and {}", spot.one, spot.other)?;
        }
        None => println!(rt; "kept")?,
    }
    Ok(())
}

// A whole round of the book.
pub fn print_search(
    rt: &HostRuntime,
    name: &str,
    words: &[u32],
    width: usize,
    rows: &[Row],
) -> anyhow::Result<()> {
    print!(rt; "{name}: ")?;
    print_break(rt, &Sheet::open(words), &Table::new(rows, width), 0, 1024)
}

// So many turns from a rule on.
pub fn print_turns(
    rt: &HostRuntime,
    words: &[u32],
    rows: &[Row],
    first: usize,
    turns: usize,
) -> anyhow::Result<()> {
    print!(rt; "{turns} turns from rule {first}: ")?;
    print_break(rt, &Sheet::open(words), &Table::new(rows, 2), first, turns)
}

fn print_break(
    rt: &HostRuntime,
    book: &Sheet<'_>,
    relation: &Table<'_>,
    first: usize,
    turns: usize,
) -> anyhow::Result<()> {
    let mut scratch = Scratch::new();
    print_found(rt, find_break(relation, book, first, turns, &mut scratch))
}
