// The walk over the words of a sheet. Each function takes the words and a place and answers the place after what it
// read, as the definitions do: a walk that kept them in itself and moved would be no plainer, since each of its methods
// would have to promise besides that the words stay.
ghost use Rattle.std.specs.Prelude.{◌≡◌, ℕ, Bool, ◌+◌, ◌*◌, ◌<◌, ◌≤◌, [], length, IfOk};
ghost use Rattle.sheets.specs.Layout.{kind_word};
ghost use Rattle.sheets.specs.Walk.{word_in, is_listed, is_side, each as each_is, lists_end, rule_end};

use crate::reads::kind_of;
use rules::fault::BookFault;
use rules::term::{BASE, Kind};

// There are 32 variables.
const LIMIT: u32 = BASE + 32;

// The word at a place, in a range.
pub(crate) fn word(words: &[u32], at: usize, low: u32, high: u32) -> Result<u32, BookFault>
    ensures value { result ≡ word_in low high words.now at }
    ensures range { IfOk result (λ w. (at < length words.now) × (low ≤ w) × (w ≤ high)) }
{
    let found = words.get(at).copied();
    found
        .filter(|w| (low..=high).contains(w))
        .ok_or(BookFault { place: at })
}

// Whether a word is a variable of the rows.
fn listed(rows: &[u32], w: u32) -> bool
    ensures { result ≡ is_listed rows.now w }
{
    w >= BASE && rows.contains(&w)
}

// Whether a word is a constant or a variable of the rows.
fn side(rows: &[u32], w: u32) -> bool
    ensures { result ≡ is_side rows.now w }
{
    w < BASE || rows.contains(&w)
}

// So many words from a place on, each as it has to be: the place after them.
// By the place, which is what a fault tells.
fn each<F: Fn(u32) -> bool>(
    words: &[u32],
    at: usize,
    count: usize,
    fits: F,
) -> Result<usize, BookFault>
    requires inside { at ≤ length words.now }
    requires few { count ≤ 64 }
    requires asks { F.IsAlwaysCallable fits }
    ensures value { (test : ℕ → Bool) → ((w : ℕ) (b : Bool) → F.post fits w b → b ≡ test w) → result ≡ each_is test words.now count at }
    ensures inside { IfOk result (λ e. (e ≤ length words.now) × (e ≡ at + count)) }
{
    for place in at..at + count {
        let fault = BookFault { place };
        let w = words.get(place).copied().ok_or(fault)?;
        if !fits(w) {
            return Err(fault);
        }
    }
    Ok(at + count)
}

// The lists of a rule, after its rows: the place after them.
fn lists(words: &[u32], at: usize, kind: Kind, rows: &[u32]) -> Result<usize, BookFault>
    requires { at ≤ length words.now }
    ensures value { result ≡ lists_end words.now rows.now (kind_word kind) at }
    ensures inside { IfOk result (λ e. e ≤ length words.now) }
{
    let most = match kind {
        Kind::Functional => 32,
        Kind::Equality => 0,
    };
    let lefts = word(words, at, 0, most)?;
    let next = each(words, at + 1, lefts as usize, |w| listed(rows, w))?;
    let pairs = word(words, next, 0, 32)?;
    match kind {
        Kind::Functional => each(words, next + 1, pairs as usize, |w| listed(rows, w)),
        Kind::Equality => each(words, next + 1, pairs as usize * 2, |w| side(rows, w)),
    }
}

// A rule: the place after it.
pub(crate) fn rule(words: &[u32], width: usize, at: usize) -> Result<usize, BookFault>
    requires { (at ≤ length words.now) × (width ≤ 8) }
    ensures value { result ≡ rule_end words.now width at }
    ensures inside { IfOk result (λ e. e ≤ length words.now) }
{
    let kind = kind_of(word(words, at, 1, 2)?);
    let rows = word(words, at + 1, 1, 4)?;
    let next = each(words, at + 2, rows as usize * width, |w| w < LIMIT)?;
    lists(words, next, kind, &words[at + 2..next])
}
