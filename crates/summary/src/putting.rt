// Bytes added one after another.
ghost use Rattle.std.specs.Prelude.{◌≡◌, ◌++◌, OnOk, Some};
ghost use Rattle.summary.specs.Summary.{begin_text, count_text, head_text, name_text};
ghost use Rattle.text.specs.Words.{word_in};

use std::alloc::AllocError;
use std::fmt;
use text::words::{Name, part_of};

// So many things.
#[derive(Clone, Copy)]
struct Many<'t> {
    count: usize,
    thing: &'t str,
}

impl fmt::Display for Many<'_> {
    ghost output = { λ many. Some (count_text many.count many.thing.now) };

    fn fmt<W: fmt::Write>(&self, f: &mut fmt::Formatter<W>) -> fmt::Result {
        let end = if self.count == 1 { "" } else { "s" };
        write!(f, "{} {}{end}", self.count, self.thing)
    }
}

// Adds the first line: the width, and how many rules, targets and constants there are.
#[tactic(auto, unfolding(crate::specs::Summary::head_text))]
pub(crate) fn push_head(
    out: &mut Vec<u8>,
    width: usize,
    rules: usize,
    targets: usize,
    names: usize,
) -> Result<(), AllocError>
    ensures { OnOk result (out.new.items ≡ out.old.items ++ head_text width rules targets names) }
{
    let rules = Many {
        count: rules,
        thing: "rule",
    };
    let targets = Many {
        count: targets,
        thing: "target",
    };
    let names = Many {
        count: names,
        thing: "constant",
    };
    let line = format!(in *out.allocator(); "width {width}, {rules}, {targets}, {names}\n")?;
    out.extend_from_slice(line.as_bytes())
}

// Adds the line of constant i.
#[tactic(auto, unfolding(crate::specs::Summary::name_text))]
pub fn push_name(out: &mut Vec<u8>, text: &[u8], i: usize, name: Name) -> Result<(), AllocError>
    ensures { OnOk result (out.new.items ≡ out.old.items ++ name_text i (word_in text.now name)) }
{
    let head = format!(in *out.allocator(); "constant {i} ")?;
    out.extend_from_slice(head.as_bytes())?;
    out.extend_from_slice(part_of(text, name))?;
    out.extend_from_slice(b"\n")
}

// Adds the line of rule or target i.
#[tactic(auto, unfolding(crate::specs::Summary::begin_text))]
pub(crate) fn push_begin(
    out: &mut Vec<u8>,
    what: &str,
    i: usize,
    line: usize,
) -> Result<(), AllocError>
    ensures { OnOk result (out.new.items ≡ out.old.items ++ begin_text what.now i line) }
{
    let text = format!(in *out.allocator(); "{what} {i} line {line}\n")?;
    out.extend_from_slice(text.as_bytes())
}
