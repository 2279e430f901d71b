// Why two books cannot be joined.
#[derive(Clone, Copy, PartialEq, Eq, Debug)]
pub enum JoinFault {
    WidthsDiffer,
    TooManyRules,
}
