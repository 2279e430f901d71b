// The fixed words of what is written, each stored once.
ghost use Rattle.std.specs.Prelude.{◌≡◌};
ghost use Rattle.pieces.specs.Table.{bytes_of, layer_word};

use rules::refusal::Layer;

#[derive(Clone, Copy, PartialEq, Eq, Debug)]
pub enum Word {
    Targets,
    Target,
    Follows,
    Fails,
    Rows,
    Refused,
    Reader,
    Book,
    Join,
    Trial,
    Report,
}

impl Word {
    // As bytes and not as `Display`: they are put into lent places, and the caller has to know when they do not fit.
    pub fn bytes(self) -> &'static [u8]
        ensures { result.now ≡ bytes_of self }
    {
        match self {
            Word::Targets => b"targets",
            Word::Target => b"target",
            Word::Follows => b"follows",
            Word::Fails => b"fails",
            Word::Rows => b"rows",
            Word::Refused => b"refused",
            Word::Reader => b"reader",
            Word::Book => b"book",
            Word::Join => b"join",
            Word::Trial => b"trial",
            Word::Report => b"report",
        }
    }
}

// The name of a layer.
impl From<Layer> for Word {
    ghost from_gives = { λ layer w. w ≡ layer_word layer };

    fn from(layer: Layer) -> Word {
        match layer {
            Layer::Reader => Word::Reader,
            Layer::Book => Word::Book,
            Layer::Join => Word::Join,
            Layer::Trial => Word::Trial,
            Layer::Report => Word::Report,
        }
    }
}
