// What names the constants of a report. A plain type with no clause, so that definitions in specs/ may name it.

use text::words::Name;

// A text, and the parts of it that are the names of the constants, by number.
#[derive(Clone, Copy)]
pub struct Naming<'t> {
    pub text: &'t [u8],
    pub names: &'t [Name],
}
