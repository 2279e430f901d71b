// The lines in their order.
ghost use Rattle.std.specs.Prelude.{◌≡◌, ℕ, ◌+◌, ◌≤◌, true, List, [], ◌∷◌, length, replicate, MatchResult};
ghost use Rattle.text.specs.Lines.{lines_from, line_at, clean};
ghost use Rattle.reader.specs.Format.{Rooms, Memo, Due, read_lines, after_count, after_kind, count as counting_line, kind as kind_line, entry as entry_line, whole_text};
ghost use Rattle.reader.specs.Held.{held, rooms_of, Sames};
ghost use Rattle.reader.specs.Goes.{going, Takes};

use crate::desk::{Counting, Cursor, Desk, Entry};
use crate::fault::{Cause, ReadFault};
use rules::term::Kind;
use text::lines::{line_clean, line_end};

impl Cursor {
    // The fault of the line here.
    fn fault(self, cause: Cause) -> ReadFault
        ensures { result ≡ record { cause = cause; line = self.line } }
    {
        ReadFault {
            cause,
            line: self.line,
        }
    }
}

impl Desk<'_, '_, '_, '_, '_> {
    // Where the line at the cursor ends: there is one, and it has no other bytes than a line may have.
    fn open_line(&self) -> Result<usize, ReadFault>
        ensures { MatchResult result
            (λ end. (self.now.at.from ≤ end) × (end ≤ length self.now.text.now) × (clean (line_at self.now.text.now self.now.at.from end).bytes ≡ true)
            × (lines_from self.now.text.now self.now.at.from ≡ line_at self.now.text.now self.now.at.from end ∷ lines_from self.now.text.now (end + 1)))
            (λ e. (rooms : Rooms) (m : Memo) (d : Due) (ds : List Due) → read_lines rooms self.now.at.line (d ∷ ds) m (lines_from self.now.text.now self.now.at.from) ≡ Err e) }
    {
        if self.at.from >= self.text.len() {
            return Err(self.at.fault(Cause::Lines));
        }
        let end = line_end(self.text, self.at.from);
        if !line_clean(self.text, self.at.from, end) {
            return Err(self.at.fault(Cause::Byte));
        }
        Ok(end)
    }

    // Steps on past the line that ends at `end`, or tells where its words are refused.
    fn close_line<T>(&mut self, end: usize, taken: Result<T, Cause>) -> Result<T, ReadFault>
        requires from { self.old.at.from ≤ end }
        requires inside { end ≤ length self.old.text.now }
        ensures same { Sames self.old self.new }
        ensures held { held self.new ≡ held self.old }
        ensures cases { MatchResult result
            (λ x. (taken ≡ Ok x) × (self.new.at.from ≡ end + 1) × (self.new.at.line ≡ self.old.at.line + 1))
            (λ e. (taken ≡ Err e.cause) × (e.line ≡ self.old.at.line)) }
    {
        let at = self.at;
        let taken = taken.map_err(|cause| at.fault(cause))?;
        self.at = Cursor {
            from: end + 1,
            line: at.line + 1,
        };
        Ok(taken)
    }

    // Takes a line with a count. Lines with a kind and with words of a rule are taken alike but for one call: one function for
    // the three takes a closure over the desk, which gets no proof, as at take_rules.
    fn take_count(&mut self, counting: Counting) -> Result<u32, ReadFault>
        ensures { Takes result self.old self.new (counting_line counting ∷ []) (after_count counting) }
    {
        let end = self.open_line()?;
        let taken = self.count_words(end, counting);
        self.close_line(end, taken)
    }

    // Takes a line with a rule's kind.
    fn take_kind(&mut self) -> Result<Kind, ReadFault>
        ensures { Takes result self.old self.new (kind_line ∷ []) after_kind }
    {
        let end = self.open_line()?;
        let taken = self.kind_words(end);
        self.close_line(end, taken)
    }

    // Takes a line with words of a rule.
    fn take_entry(&mut self, form: Entry) -> Result<(), ReadFault>
        ensures { Takes result self.old self.new (entry_line form ∷ []) (λ _. []) }
    {
        let end = self.open_line()?;
        let taken = self.entry_words(end, form);
        self.close_line(end, taken)
    }

    // Takes a count and the lines that it counts.
    fn take_list(&mut self, counting: Counting, form: Entry) -> Result<(), ReadFault>
        requires counts { (n : ℕ) → after_count counting n ≡ replicate n (entry_line form) }
        ensures { Takes result self.old self.new (counting_line counting ∷ []) (λ _. []) }
    {
        let many = self.take_count(counting)?;
        for _ in 0..many {
            self.take_entry(form)?;
        }
        Ok(())
    }

    // Takes the lines of a rule.
    fn take_rule(&mut self) -> Result<(), ReadFault>
        ensures { Takes result self.old self.new (kind_line ∷ []) (λ _. []) }
    {
        let kind = self.take_kind()?;
        self.take_list(Counting::Rows, Entry::Row)?;
        match kind {
            Kind::Functional => {
                self.take_list(Counting::Left, Entry::Variable)?;
                self.take_list(Counting::Right, Entry::Variable)
            }
            Kind::Equality => self.take_list(Counting::Pairs, Entry::Pair),
        }
    }

    // Takes a count and the rules that it counts. The loop is take_list's over rules: one function for both takes a closure
    // over the desk, and the checker proves none yet whose bound names several lifetimes.
    fn take_rules(&mut self, counting: Counting) -> Result<(), ReadFault>
        requires counts { (n : ℕ) → after_count counting n ≡ replicate n kind_line }
        ensures { Takes result self.old self.new (counting_line counting ∷ []) (λ _. []) }
    {
        let many = self.take_count(counting)?;
        for _ in 0..many {
            self.take_rule()?;
        }
        Ok(())
    }

    // Takes all lines; none may follow.
    pub(crate) fn take_text(&mut self) -> Result<(), ReadFault>
        ensures same { Sames self.old self.new }
        ensures cases { MatchResult result
            (λ _. going (rooms_of self.old) self.old whole_text ≡ Ok (held self.new))
            (λ e. going (rooms_of self.old) self.old whole_text ≡ Err e) }
    {
        self.take_count(Counting::Width)?;
        self.take_rules(Counting::Rules)?;
        self.take_rules(Counting::Targets)?;
        if self.at.from < self.text.len() {
            return Err(self.at.fault(Cause::Lines));
        }
        Ok(())
    }
}
