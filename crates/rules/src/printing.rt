// How terms, kinds and refusals are printed.
ghost use Rattle.std.specs.Prelude.{Some};
ghost use Rattle.rules.specs.Printed.{kind_name, layer_name, refusal_line, term_name};

use crate::refusal::{Layer, Refusal};
use crate::term::{Kind, Term};
use std::fmt;

impl fmt::Display for Term {
    ghost output = { λ term. Some (term_name term) };

    fn fmt<W: fmt::Write>(&self, f: &mut fmt::Formatter<W>) -> fmt::Result {
        match self {
            Term::Constant(c) => write!(f, "{c}"),
            Term::Variable(v) => write!(f, "${v}"),
        }
    }
}

impl fmt::Display for Kind {
    ghost output = { λ kind. Some (kind_name kind) };

    fn fmt<W: fmt::Write>(&self, f: &mut fmt::Formatter<W>) -> fmt::Result {
        f.write_str(match self {
            Kind::Functional => "functional",
            Kind::Equality => "equality",
        })
    }
}

impl fmt::Display for Layer {
    ghost output = { λ layer. Some (layer_name layer) };

    fn fmt<W: fmt::Write>(&self, f: &mut fmt::Formatter<W>) -> fmt::Result {
        f.write_str(match self {
            Layer::Reader => "reader",
            Layer::Book => "book",
            Layer::Join => "join",
            Layer::Trial => "trial",
            Layer::Report => "report",
        })
    }
}

impl fmt::Display for Refusal {
    ghost output = { λ refusal. Some (refusal_line refusal) };

    fn fmt<W: fmt::Write>(&self, f: &mut fmt::Formatter<W>) -> fmt::Result {
        write!(f, "refused {} {} {}", self.number, self.layer, self.place)
    }
}
