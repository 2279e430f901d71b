// A refusal as every layer tells it.

// The layer that refused.
#[derive(Clone, Copy, PartialEq, Eq, Debug)]
pub enum Layer {
    Reader,
    Book,
    Join,
    Trial,
    Report,
}

// Its number in the table of refusals, who refused, and where: a place, or 0 where there is none to tell.
#[derive(Clone, Copy, PartialEq, Eq, Debug)]
pub struct Refusal {
    pub number: u8,
    pub layer: Layer,
    pub place: usize,
}
