// What the reader has before it. No clause here but the desk's own facts, so that definitions in specs/ may name these types.
ghost use Rattle.std.specs.Prelude.{◌+◌, ◌≤◌, length};
ghost use Rattle.std.specs.List.{AllByRecursion};
ghost use Rattle.std.proofs.Props.{props};
ghost use Rattle.text.specs.Filled.{items};
ghost use Rattle.reader.specs.Lists.{Inside, Within};

use text::list::Places;
use text::words::Name;

// What a line with a keyword and a number counts.
#[derive(Clone, Copy)]
pub enum Counting {
    Width,
    Rules,
    Targets,
    Rows,
    Left,
    Right,
    Pairs,
}

// A line with words of the rule itself.
#[derive(Clone, Copy)]
pub enum Entry {
    Row,
    Variable,
    Pair,
}

// The sheet that is being filled.
#[derive(Clone, Copy)]
pub enum Part {
    Rules,
    Targets,
}

// Where the next line begins, and its number.
#[derive(Clone, Copy)]
pub struct Cursor {
    pub from: usize,
    pub line: usize,
}

// The text and where it is read, the lists that are filled, and what is known of the rule under way: the width, the sheet
// that it goes to, and the names of its variables. The cursor stands in the text or just past it, and has not passed more
// lines than bytes; no list has more elements than it has room for, and each name is that of a part of the text.
// The lists are held by reference, each under its own lifetimes: of a list that is held by value the checker does not know
// what its lent places hold once the desk is gone.
#[derive(Drop)]
pub struct Desk<'d, 'r, 't, 'n, 'v> {
    pub text: &'d [u8],
    pub at: Cursor,
    pub width: u32,
    pub part: Part,
    pub rules: &'d mut Places<'r, u32>,
    pub targets: &'d mut Places<'t, u32>,
    pub names: &'d mut Places<'n, Name>,
    pub vars: &'d mut Places<'v, Name>,
    pub ghost short: { length text.now ≤ 65536 },
    pub ghost stands: { at.from ≤ length text.now + 1 },
    pub ghost numbered: { at.line ≤ at.from + 1 },
    pub ghost rules_within: { Within rules.now },
    pub ghost targets_within: { Within targets.now },
    pub ghost names_within: { Within names.now },
    pub ghost names_inside: { AllByRecursion (Inside text.now) (items names.now) } by { Prim.hlevel props },
    pub ghost vars_within: { Within vars.now },
    pub ghost vars_inside: { AllByRecursion (Inside text.now) (items vars.now) } by { Prim.hlevel props },
}

// The places that a caller lends for the two sheets and for the names of the constants; there is no heap where this runs.
#[derive(Drop)]
pub struct Lent<'l> {
    pub rules: &'l mut [u32],
    pub targets: &'l mut [u32],
    pub names: &'l mut [Name],
}

// How many words and names were read.
#[derive(Clone, Copy, PartialEq, Eq, Debug, Default)]
pub struct Sizes {
    pub rules: usize,
    pub targets: usize,
    pub names: usize,
}
