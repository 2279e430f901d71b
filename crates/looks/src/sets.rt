// Sets of rules that are hard to look at, and an ordinary one, as the words of a sheet.
use rules::term::BASE;
use std::alloc::Global;

// How many rules a set has.
pub const RULES: u16 = 256;

#[derive(Clone, Copy)]
pub enum Set {
    // four rows that share no variable, and nothing on the left
    Free,
    // four rows in a ring, one variable on the left
    Ring,
    // three rows that match but never matter, before the one that does
    Decoys,
    // four rows that share no variable, a key of each on the left: every choice of rows is a group of its own
    Groups,
    // one row: one column decides another
    Keys,
}

// Each set by its name.
pub const SETS: [(&str, Set); 5] = [
    ("free", Set::Free),
    ("ring", Set::Ring),
    ("decoys", Set::Decoys),
    ("groups", Set::Groups),
    ("keys", Set::Keys),
];

impl Set {
    fn rows(self) -> u8 {
        match self {
            Set::Keys => 1,
            _ => 4,
        }
    }

    fn variable(self, row: u8, column: u8) -> u32 {
        let cell = 8 * (row as u32) + column as u32;
        match self {
            Set::Ring => match column {
                0 => row as u32,
                7 => (row as u32 + 1) % 4,
                _ => 3 + 6 * (row as u32) + column as u32,
            },
            _ => cell,
        }
    }

    fn lefts(self) -> u8 {
        match self {
            Set::Free => 0,
            Set::Groups => 4,
            _ => 1,
        }
    }

    fn left(self, rule: u16, k: u8) -> u32 {
        match self {
            Set::Decoys => 24,
            Set::Groups => 8 * (k as u32) + 2,
            Set::Keys => rule as u32 % 8,
            _ => 0,
        }
    }

    fn right(self, rule: u16) -> u32 {
        match self {
            Set::Ring => 4 + 6 * (rule as u32 % 4),
            Set::Groups => rule as u32 % 32,
            Set::Keys => rule as u32 / 8 % 8,
            _ => 24 + rule as u32 % 8,
        }
    }
}

// The words of a sheet of width 8 with the first `rules` rules of the set.
pub fn words_of(heap: Global, set: Set, rules: u16) -> anyhow::Result<Vec<u32>> {
    let mut words = vec![in heap; 8, u32::from(rules)]?;
    for rule in 0..rules {
        put_rule(&mut words, set, rule)?;
    }
    Ok(words)
}

fn put_rule(words: &mut Vec<u32>, set: Set, rule: u16) -> anyhow::Result<()> {
    words.extend_from_slice(&[1, u32::from(set.rows())])?;
    for row in 0..set.rows() {
        for column in 0..8 {
            words.push(BASE.wrapping_add(set.variable(row, column)))?;
        }
    }
    words.push(u32::from(set.lefts()))?;
    for k in 0..set.lefts() {
        words.push(BASE.wrapping_add(set.left(rule, k)))?;
    }
    words.extend_from_slice(&[1, BASE.wrapping_add(set.right(rule))])?;
    Ok(())
}
