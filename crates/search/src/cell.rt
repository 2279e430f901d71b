ghost use Rattle.std.specs.Prelude.{◌≡◌, [], slice_index, slice_index_or};

use crate::relation::Relation;

// The entry, or 0 past an end.
pub(crate) fn cell<R: Relation>(relation: &R, row: usize, column: usize) -> u32
    ensures { result ≡ slice_index (slice_index_or (R.meaning relation.now).rows row []) column }
{
    relation.entry(row, column).unwrap_or(0)
}
