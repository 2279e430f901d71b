// Counts: decimal numbers with no leading zero.
ghost use Rattle.std.specs.Prelude.{◌≡◌};
ghost use Rattle.text.specs.Counts.{count_of};

// The number that a word writes, if it is one from low to high. A `parse` would take a sign and zeros before the number too.
pub fn parse_count(word: &[u8], low: u32, high: u32) -> Option<u32>
    ensures { result ≡ count_of low high word.now }
{
    if word.is_empty() || (word.len() > 1 && word.starts_with(b"0")) {
        return None;
    }
    let mut value: u64 = 0;
    for b in word {
        if !b.is_ascii_digit() {
            return None;
        }
        value = value * 10 + u64::from(*b - b'0');
        if value > u64::from(high) {
            return None;
        }
    }
    (value >= u64::from(low)).then_some(value as u32)
}
