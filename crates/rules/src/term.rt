// The words of a rule: plain types with no clause, so that definitions in specs/ may name them.

// Constants are below this number. Where a term is one number, as a word of a sheet or an entry of rows, the variable or symbol v is this
// number and v more.
pub const BASE: u32 = 16_777_216;

// An entry of a pattern: a constant, which stands for its own number, or a variable of the rule.
#[derive(Clone, Copy, PartialEq, Eq, Debug)]
pub enum Term {
    Constant(u32),
    Variable(u8),
}

// What a rule demands: a functional rule compares two placings of its pattern (a functional dependency on the
// pattern), an equality rule looks at one (an equality-generating dependency).
#[derive(Clone, Copy, PartialEq, Eq, Debug)]
pub enum Kind {
    Functional,
    Equality,
}
