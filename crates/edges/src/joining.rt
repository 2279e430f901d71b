// Joined books at their edges.
use crate::making::plain_sheet;
use crate::saying::print_book;
use joins::joined::{Joined, check_join};
use rules::book::Book;
use sheets::sheet::Sheet;
use std::io;

fn print_join<A: Book, B: Book>(
    rt: &HostRuntime,
    case: &str,
    first: &A,
    second: &B,
) -> io::Result<()> {
    print_book(
        rt,
        case,
        check_join(first, second),
        &Joined { first, second },
    )
}

pub fn print_joins(rt: &HostRuntime) -> anyhow::Result<()> {
    let words = plain_sheet(rt.alloc(), 256)?;
    let full = Sheet::open(words.as_slice());
    let one_words = plain_sheet(rt.alloc(), 1)?;
    let one = Sheet::open(one_words.as_slice());
    let wide_words = [2, 0];
    let wide = Sheet::open(&wide_words);
    let half = Joined {
        first: full,
        second: full,
    };
    let most = Joined {
        first: half,
        second: half,
    };
    print_join(rt, "512 rules", &full, &full)?;
    print_join(rt, "1024 rules, a join of joins", &half, &half)?;
    print_join(rt, "1025 rules", &most, &one)?;
    print_join(rt, "1025 rules the other way round", &one, &most)?;
    print_join(rt, "widths 1 and 2", &one, &wide)?;
    print_join(rt, "another width and too many rules", &most, &wide)?;
    Ok(())
}
