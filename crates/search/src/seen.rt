// The table of placings, one for each choice of left numbers.
ghost use Rattle.std.specs.Prelude.{◌≡◌, ℕ, ◌+◌, ◌<◌, ◌≤◌, true, length, MatchOption, slice_index};
ghost use Rattle.rules.specs.Loaded.{Symbolic};
ghost use Rattle.search.specs.Placings.{filled, Groupable, Landed, SameLeft, SameRight, Parts};
ghost use Rattle.rules.specs.Rules.{at};
ghost use Rattle.search.specs.Seens.{bucket, Covered, Fine, mix, New, Old, PartingAt, Went};

use crate::ground::Ground;
use crate::relation::Relation;
use crate::walk::Difference;
use rules::term::Term;

// For each row of a pattern a row of the relation: in bytes, since the table holds 4,096 of them.
#[derive(Clone, Copy)]
pub struct Placing {
    pub rows: [u8; 4],
}

// The placings in the order in which they came, in arrays, since the search runs with fixed memory and no heap. They are
// chained by buckets: one more than a placing's number, 0 at the end, where an `Option` would take twice the room. There is
// room for all placings of four rows in eight. That the table is fine is asked of each function: it ties the table to what is
// read, which is lent anew each time.
#[derive(Clone, Copy)]
pub struct Seen {
    pub placings: [Placing; 4096],
    pub next: [u16; 4096],
    pub heads: [u16; 1024],
    pub used: usize,
}

// Two placings that agree on the left and differ in a pair.
#[derive(Clone, Copy)]
pub struct Parting {
    pub first: Placing,
    pub second: Placing,
    pub difference: Difference,
}

impl Seen {
    pub(crate) fn new() -> Seen {
        Seen {
            placings: [Placing { rows: [0; 4] }; 4096],
            next: [0; 4096],
            heads: [0; 1024],
            used: 0,
        }
    }
}

// Empties the table.
pub(crate) fn clear(seen: &mut Seen)
    ensures none { seen.new.used ≡ 0 }
    ensures heads { (b : ℕ) → b < 1024 → slice_index seen.new.heads b ≡ 0 }
{
    seen.heads.fill(0);
    seen.used = 0;
}

fn mixed(hash: u64, number: u32) -> u64
    ensures { result ≡ mix hash number }
{
    hash.wrapping_add(number as u64)
        .wrapping_mul(11400714819323198485)
}

impl<R: Relation> Ground<'_, R> {
    // Whether the two placings agree on the left.
    fn same_left(&self, a: &Placing, b: &Placing) -> bool
        requires groupable { Groupable self.now.rule.now }
        ensures yes { result ≡ true → SameLeft self.now.rule.now (filled (R.meaning self.now.relation.now).rows self.now.plan.now a.now.rows) (filled (R.meaning self.now.relation.now).rows self.now.plan.now b.now.rows) }
        ensures no { SameLeft self.now.rule.now (filled (R.meaning self.now.relation.now).rows self.now.plan.now a.now.rows) (filled (R.meaning self.now.relation.now).rows self.now.plan.now b.now.rows) → result ≡ true }
    {
        for v in self.rule.left() {
            let term = Term::Variable(*v);
            let one = self.number_of(a, term);
            let other = self.number_of(b, term);
            if one != other {
                return false;
            }
        }
        true
    }

    // A right variable to which the two placings give two numbers.
    fn parted(&self, a: &Placing, b: &Placing) -> Option<Difference>
        requires groupable { Groupable self.now.rule.now }
        ensures { MatchOption result (SameRight self.now.rule.now (filled (R.meaning self.now.relation.now).rows self.now.plan.now a.now.rows) (filled (R.meaning self.now.relation.now).rows self.now.plan.now b.now.rows)) (λ d. Parts self.now.rule.now (filled (R.meaning self.now.relation.now).rows self.now.plan.now a.now.rows) (filled (R.meaning self.now.relation.now).rows self.now.plan.now b.now.rows) d.pair d.one d.other) }
    {
        self.differing(a, b)
    }

    // The bucket of the placing, by its left numbers.
    fn bucket_of(&self, placing: &Placing) -> usize
        requires groupable { Groupable self.now.rule.now }
        ensures within { result < 1024 }
        ensures value { result ≡ bucket (R.meaning self.now.relation.now).rows self.now.rule.now self.now.plan.now placing.now.rows }
    {
        let mut hash: u64 = 0;
        for v in self.rule.left() {
            let term = Term::Variable(*v);
            hash = mixed(hash, self.number_of(placing, term));
        }
        (hash >> 54) as usize
    }

    // The placing of the table that agrees with this one on the left: along the chain of its bucket, by numbers, since the
    // links are an array.
    fn look_up(&self, seen: &Seen, placing: &Placing, home: usize) -> Option<usize>
        requires groupable { Groupable self.now.rule.now }
        requires fine { Fine (R.meaning self.now.relation.now).rows self.now.rule.now self.now.plan.now seen.now }
        requires within { home < 1024 }
        requires home { home ≡ bucket (R.meaning self.now.relation.now).rows self.now.rule.now self.now.plan.now placing.now.rows }
        ensures { MatchOption result (New (R.meaning self.now.relation.now).rows self.now.rule.now self.now.plan.now seen.now placing.now.rows) (λ e. Old (R.meaning self.now.relation.now).rows self.now.rule.now self.now.plan.now seen.now placing.now.rows e) }
    {
        let mut at = seen.heads[home] as usize;
        while at > 0 {
            let e = at - 1;
            if self.same_left(&seen.placings[e], placing) {
                return Some(e);
            }
            at = seen.next[e] as usize;
        }
        None
    }

    // Adds a placing.
    fn add(&self, seen: &mut Seen, placing: &Placing, home: usize)
        requires fine { Fine (R.meaning self.now.relation.now).rows self.now.rule.now self.now.plan.now seen.old }
        requires room { seen.old.used < 4096 }
        requires lands { Landed (R.meaning self.now.relation.now).rows self.now.rule.now self.now.plan.now placing.now.rows self.now.rule.now.row_count }
        requires new { New (R.meaning self.now.relation.now).rows self.now.rule.now self.now.plan.now seen.old placing.now.rows }
        requires within { home < 1024 }
        requires home { home ≡ bucket (R.meaning self.now.relation.now).rows self.now.rule.now self.now.plan.now placing.now.rows }
        ensures went { Went (R.meaning self.now.relation.now).rows self.now.rule.now self.now.plan.now seen.old seen.new 1 }
        ensures added { Covered (R.meaning self.now.relation.now).rows self.now.rule.now self.now.plan.now seen.new (filled (R.meaning self.now.relation.now).rows self.now.plan.now placing.now.rows) }
    {
        let place = seen.used;
        seen.placings[place] = *placing;
        seen.next[place] = seen.heads[home];
        seen.heads[home] = (place + 1) as u16;
        seen.used = place + 1;
    }

    // Holds the placing against those before it, and adds it if it is new.
    pub(crate) fn settle(&self, placing: &Placing, seen: &mut Seen) -> Option<Parting>
        requires groupable { Groupable self.now.rule.now }
        requires fine { Fine (R.meaning self.now.relation.now).rows self.now.rule.now self.now.plan.now seen.old }
        requires room { seen.old.used < 4096 }
        requires lands { Landed (R.meaning self.now.relation.now).rows self.now.rule.now self.now.plan.now placing.now.rows self.now.rule.now.row_count }
        ensures { MatchOption result (Went (R.meaning self.now.relation.now).rows self.now.rule.now self.now.plan.now seen.old seen.new 1 × Covered (R.meaning self.now.relation.now).rows self.now.rule.now self.now.plan.now seen.new (filled (R.meaning self.now.relation.now).rows self.now.plan.now placing.now.rows)) (PartingAt (R.meaning self.now.relation.now).rows self.now.rule.now) }
    {
        let home = self.bucket_of(placing);
        match self.look_up(seen, placing, home) {
            Some(e) => {
                let first = seen.placings[e];
                let difference = self.parted(&first, placing)?;
                Some(Parting {
                    first,
                    second: *placing,
                    difference,
                })
            }
            None => {
                self.add(seen, placing, home);
                None
            }
        }
    }

    // Whether a placing of the table has the left and the right numbers of this one.
    pub(crate) fn is_covered(&self, placing: &Placing, seen: &Seen) -> bool
        requires groupable { Groupable self.now.rule.now }
        requires fine { Fine (R.meaning self.now.relation.now).rows self.now.rule.now self.now.plan.now seen.now }
        ensures { result ≡ true → Covered (R.meaning self.now.relation.now).rows self.now.rule.now self.now.plan.now seen.now (filled (R.meaning self.now.relation.now).rows self.now.plan.now placing.now.rows) }
    {
        let home = self.bucket_of(placing);
        match self.look_up(seen, placing, home) {
            Some(e) => self.parted(&seen.placings[e], placing).is_none(),
            None => false,
        }
    }
}
