// Bytes put down one after another.
ghost use Rattle.std.specs.Prelude.{[], ◌∷◌, decimal};
ghost use Rattle.pieces.specs.Put.{Puts};

use crate::output::{Output, Short};

impl Output<'_> {
    // Puts a word down.
    pub(crate) fn put_word(&mut self, word: &[u8]) -> Result<(), Short>
        ensures { Puts self.old word.now result self.new }
    {
        let used = self.used;
        let end = used.checked_add(word.len()).ok_or(Short)?;
        if end > self.places.len() {
            return Err(Short);
        }
        self.places[used..end].copy_from_slice(word);
        self.used = end;
        Ok(())
    }

    // Puts a byte down.
    pub fn put_byte(&mut self, b: u8) -> Result<(), Short>
        ensures { Puts self.old (b ∷ []) result self.new }
    {
        self.put_word(&[b])
    }

    // Puts a number down in decimal. `write!` says nothing of what did not fit, which the caller has to know here.
    pub(crate) fn put_number(&mut self, n: usize) -> Result<(), Short>
        ensures { Puts self.old (decimal n) result self.new }
    {
        if n >= 10 {
            self.put_number(n / 10)?;
        }
        self.put_byte(b'0' + (n % 10) as u8)
    }
}
