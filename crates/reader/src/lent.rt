// The places that a caller lends, and the end of them that is left blank.
ghost use Rattle.std.specs.Prelude.{◌≡◌, ◌-◌, ◌++◌, length, take, replicate};
ghost use Rattle.reader.specs.Reads.{no_name, SamePlaces};

use crate::desk::{Lent, Sizes};
use text::list::blank_from;
use text::words::Name;

impl Lent<'_> {
    // Puts zero into the places past those that are used.
    pub fn blank_past(&mut self, used: Sizes)
        ensures same { SamePlaces self.old self.new }
        ensures rules { self.new.rules.now ≡ take used.rules self.old.rules.now ++ replicate (length self.old.rules.now - used.rules) 0 }
        ensures targets { self.new.targets.now ≡ take used.targets self.old.targets.now ++ replicate (length self.old.targets.now - used.targets) 0 }
        ensures names { self.new.names.now ≡ take used.names self.old.names.now ++ replicate (length self.old.names.now - used.names) no_name }
    {
        blank_from(self.rules, used.rules, 0);
        blank_from(self.targets, used.targets, 0);
        blank_from(self.names, used.names, Name::NONE);
    }
}
