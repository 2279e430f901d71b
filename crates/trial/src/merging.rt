// Merging: open spot after open spot, until enough merges are made, none is left, or two constants meet.
ghost use Rattle.std.specs.Prelude.{◌≡◌, ◌+◌, ◌<◌, ◌≤◌, min, max, false, length, MatchOption};
ghost use Rattle.law.specs.Stored.{replaced, stored};
ghost use Rattle.law.specs.Groups.{group_count};
ghost use Rattle.search.specs.Spots.{Found, Quiet};
ghost use Rattle.trial.specs.Views.{rows_of, rows_now};
ghost use Rattle.trial.specs.Merging.{ClashedAt, MergedAt, Stopped};

use crate::held::{Held, SYMBOLS};
use law::outcome::Stop;
use rules::book::Book;
use rules::term::BASE;
use search::find::{Scratch, find_break};
use search::spot::Spot;

// What was the one number is the other.
fn replace(shown: &mut [u32; SYMBOLS], one: u32, other: u32)
    ensures { shown.new ≡ replaced one other shown.old }
{
    for number in shown.iter_mut() {
        if *number == one {
            *number = other;
        }
    }
}

impl Held {
    // The merge at an open spot: the two groups are one, which shows as the lesser number.
    fn merge(&mut self, spot: &Spot)
        requires { self.old.merges + 1 + group_count (rows_of self.old) (stored (replaced (max spot.now.one spot.now.other) (min spot.now.one spot.now.other) self.old.shown)) ≤ 64 }
        ensures { MergedAt self.old spot.now self.new }
    {
        let greater = spot.one.max(spot.other);
        let lesser = spot.one.min(spot.other);
        replace(&mut self.shown, greater, lesser);
        self.merges += 1;
        self.at = spot.rule;
    }

    // The two numbers of the open spot are constants.
    fn clash(&mut self, spot: &Spot)
        ensures { ClashedAt self.old spot.now self.new }
    {
        self.clashed = true;
        self.at = spot.rule;
    }

    // An open spot of the current rows, by a rule from where the search goes on; none after a full quiet round.
    fn look<B: Book>(&self, book: &B, scratch: &mut Scratch) -> Option<Spot>
        ensures { MatchOption result (Quiet (rows_now self.now) (B.meaning book.now).rules self.now.at (length (B.meaning book.now).rules)) (Found (rows_now self.now) (B.meaning book.now).rules self.now.at (length (B.meaning book.now).rules)) }
    {
        let turns = book.count();
        find_break(self, book, self.at, turns, scratch)
    }
}

// The record after merging, how many merges were made, and why it stopped.
#[derive(Clone, Copy)]
pub struct Ran {
    pub held: Held,
    pub made: usize,
    pub stop: Stop,
}

// At most n merges. After a merge the search goes on with the rule where it was; at rest is what no rule has a spot in.
pub(crate) fn run<B: Book>(start: Held, book: &B, n: usize) -> Ran
    requires { start.clashed ≡ false }
    ensures { Stopped (B.meaning book.now).rules n start result.held result.made result.stop }
{
    let mut scratch = Scratch::new();
    let mut held = start;
    // Counted by hand, since the loop yields why it stopped by `break`, and a `for` yields nothing.
    let mut made = 0;
    let stop = loop {
        if made == n {
            break Stop::Spent;
        }
        let Some(spot) = held.look(book, &mut scratch) else {
            break Stop::Rest;
        };
        if spot.one.max(spot.other) < BASE {
            held.clash(&spot);
            break Stop::Clash;
        }
        held.merge(&spot);
        made += 1;
    };
    Ran { held, made, stop }
}
