// The check of a key list.
ghost use Rattle.std.specs.Prelude.{◌≡◌, ◌<◌, ◌≤◌, length, MatchOption, OnOk, slice_index};
ghost use Rattle.keys.specs.Keys.{AllBelow, Shaped};
ghost use Rattle.keys.specs.Faults.{Says, checked, shaped};

use rules::fault::BookFault;

// Checks the width and the number of bytes.
fn shape(width: usize, count: usize) -> Result<(), BookFault>
    ensures value { result ≡ shaped width count }
    ensures fits { OnOk result (Shaped width count) }
{
    if width < 1 || width > 8 {
        return Err(BookFault { place: 0 });
    }
    if count > 512 {
        return Err(BookFault { place: 512 });
    }
    if count % 2 != 0 {
        return Err(BookFault { place: count });
    }
    Ok(())
}

// The place of the first byte that is not below the limit.
fn first_high(bytes: &[u8], limit: u16) -> Option<usize>
    ensures { MatchOption result (AllBelow limit bytes.now (length bytes.now)) (λ i. (i < length bytes.now) × (limit ≤ slice_index bytes.now i) × AllBelow limit bytes.now i) }
{
    bytes.iter().position(|byte| u16::from(*byte) >= limit)
}

// Checks a key list, and tells the place of its first fault.
pub fn check(width: usize, bytes: &[u8]) -> Result<(), BookFault>
    ensures value { result ≡ checked width bytes.now }
    ensures says { Says width bytes.now result }
{
    shape(width, bytes.len())?;
    first_high(bytes, 1 << width).map_or(Ok(()), |place| Err(BookFault { place }))
}
