ghost use Rattle.std.specs.Prelude.{◌≡◌, ◌≤◌, length, Some, None, MatchOption};
ghost use Rattle.std.specs.List.{slice_get};
ghost use Rattle.keys.specs.Keys.{key_rule, key_rules, keys_meaning};
ghost use Rattle.keys.specs.Laws.{Opens};
ghost use Rattle.keys.specs.Wells.{keys_well};

use crate::checking::check;
use crate::columns::column;
use crate::laws::keys_are_dependencies;
use rules::book::Book;
use rules::term::{Kind, Term};

// The bytes of one rule.
#[derive(Clone, Copy)]
struct Key {
    left: u8,
    right: u8,
}

// A book written down as a width and pairs of bytes.
#[derive(Clone, Copy)]
pub struct KeyList<'a> {
    width: usize,
    bytes: &'a [u8],
    ghost some: { 1 ≤ width },
    ghost narrow: { width ≤ 8 },
    ghost few: { length bytes.now ≤ 512 },
}

impl<'a> KeyList<'a> {
    // Opens a key list; one that fails the check has width 1 and no rules.
    pub fn open(width: usize, bytes: &'a [u8]) -> KeyList<'a>
        ensures { Opens width bytes.now (keys_meaning result.width result.bytes.now) }
    {
        // This does nothing: it brings the law that the contract cites.
        keys_are_dependencies();
        if check(width, bytes).is_err() {
            return KeyList {
                width: 1,
                bytes: &[],
            };
        }
        KeyList { width, bytes }
    }

    // The bytes of a rule.
    fn key(&self, rule: usize) -> Option<Key>
        ensures { MatchOption result (slice_get (key_rules self.now.width self.now.bytes.now) rule ≡ None) (λ k. slice_get (key_rules self.now.width self.now.bytes.now) rule ≡ Some (key_rule self.now.width k.left k.right)) }
    {
        if rule >= self.bytes.len() / 2 {
            return None;
        }
        Some(Key {
            left: self.bytes[rule * 2],
            right: self.bytes[rule * 2 + 1],
        })
    }
}

impl<'a> Book for KeyList<'a> {
    ghost meaning = { λ s. keys_meaning s.width s.bytes.now };

    ghost well = { λ s. keys_well s.width s.bytes.now s.some s.narrow s.few };

    fn width(&self) -> usize {
        self.width
    }

    fn count(&self) -> usize {
        self.bytes.len() / 2
    }

    fn kind(&self, rule: usize) -> Option<Kind> {
        self.key(rule).map(|_| Kind::Functional)
    }

    fn rows(&self, rule: usize) -> Option<usize> {
        self.key(rule).map(|_| 1)
    }

    fn term(&self, rule: usize, row: usize, column: usize) -> Option<Term> {
        self.key(rule)?;
        if row > 0 || column >= self.width {
            return None;
        }
        Some(Term::Variable(column as u8))
    }

    fn left(&self, rule: usize, k: usize) -> Option<u8> {
        let key = self.key(rule)?;
        column(key.left, self.width, k)
    }

    // Right variable k, twice.
    fn pair(&self, rule: usize, k: usize) -> Option<(Term, Term)> {
        let key = self.key(rule)?;
        let v = column(key.right, self.width, k)?;
        Some((Term::Variable(v), Term::Variable(v)))
    }
}
