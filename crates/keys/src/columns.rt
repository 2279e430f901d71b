// The columns that a byte stands for: its set bits, rising.
ghost use Rattle.std.specs.Prelude.{◌≡◌, ◌<◌, ◌≤◌};
ghost use Rattle.std.specs.List.{slice_get};
ghost use Rattle.keys.specs.Keys.{columns, has_bit};

// Whether a column is among them.
fn has_column(byte: u8, j: u8) -> bool
    requires { j < 8 }
    ensures { result ≡ has_bit byte j }
{
    (byte >> j) % 2 == 1
}

// Column k of a byte, counted from 0.
pub(crate) fn column(byte: u8, width: usize, k: usize) -> Option<u8>
    requires { width ≤ 8 }
    ensures { result ≡ slice_get (columns width byte) k }
{
    (0..width as u8).filter(|j| has_column(byte, *j)).nth(k)
}
