// The edges of sheets, key lists and joined books: each case with what comes of it.
#![tactic(auto)]

mod joining;
mod key_lists;
mod making;
mod saying;
mod sheet_words;

fn main(rt: HostRuntime) -> anyhow::Result<()> {
    run(&rt)
}

fn run(rt: &HostRuntime) -> anyhow::Result<()> {
    sheet_words::print_ranges(rt)?;
    sheet_words::print_cuts(rt)?;
    sheet_words::print_counts(rt)?;
    key_lists::print_key_lists(rt)?;
    joining::print_joins(rt)
}
