// Where each rule of a sheet begins.
ghost use Rattle.std.specs.Prelude.{◌≡◌, ℕ, ◌≤◌, length, Ok, Err, MatchResult};
ghost use Rattle.sheets.specs.Walk.{rules_end, sheet_end};
ghost use Rattle.sheets.specs.Facts.{Starts, Tabled};

use crate::walk::{rule, word};
use rules::fault::BookFault;

// The width and the count of a sheet, and where its rules begin: that many places, in an array of as many as there may be,
// since nothing is allocated here.
#[derive(Clone, Copy)]
pub(crate) struct Opening {
    pub width: usize,
    pub count: usize,
    pub starts: [usize; 256],
}

impl Opening {
    // Of a sheet that fails the check.
    pub const EMPTY: Opening = Opening {
        width: 1,
        count: 0,
        starts: [0; 256],
    };
}

// Where each of so many rules begins.
fn starts(words: &[u32], width: usize, count: usize) -> Result<[usize; 256], BookFault>
    requires { (2 ≤ length words.now) × ((width ≤ 8) × (count ≤ 256)) }
    ensures { MatchResult result (λ s. ((e : ℕ) × (rules_end words.now width count 2 ≡ Ok e)) × Starts words.now width count s) (λ e. rules_end words.now width count 2 ≡ Err e) }
{
    let mut starts = [0usize; 256];
    let mut at = 2;
    for start in &mut starts[..count] {
        *start = at;
        at = rule(words, width, at)?;
    }
    Ok(starts)
}

// Checks a sheet, and tells where its rules begin.
pub(crate) fn table(words: &[u32]) -> Result<Opening, BookFault>
    ensures { MatchResult result (λ t. Tabled words.now t.width t.count t.starts) (λ e. sheet_end words.now ≡ Err e) }
{
    let width = word(words, 0, 1, 8)? as usize;
    let count = word(words, 1, 0, 256)? as usize;
    let starts = starts(words, width, count)?;
    Ok(Opening {
        width,
        count,
        starts,
    })
}
