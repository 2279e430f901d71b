// What a started trial holds.
ghost use Rattle.std.specs.Prelude.{◌+◌, ◌≤◌};
ghost use Rattle.rules.specs.Loaded.{Form, meant};
ghost use Rattle.law.specs.Groups.{group_count};
ghost use Rattle.law.specs.Stored.{stored};

use rules::loaded::LoadedRule;

// How many symbols a doubled form has at most.
pub const SYMBOLS: usize = 64;

// The target's doubled form, whose rows are the starting rows; what each symbol shows as, a number as a relation's entries are; the merges made over the
// trial's life; whether it has clashed; and the rule where the search for open spots goes on. Each symbol
// stands in a group of its own at first, and each merge leaves one group less.
#[derive(Clone, Copy)]
pub struct Held {
    pub target: LoadedRule,
    pub shown: [u32; SYMBOLS],
    pub merges: usize,
    pub clashed: bool,
    pub at: usize,
    ghost form: { ∥ Form target.width (meant target) ∥₁ },
    ghost few: { merges + group_count (meant target).pattern (stored shown) ≤ 64 },
}
