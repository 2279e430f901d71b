// A row of a relation.

// Its entries, of which the first so many count as the relation is wide.
#[derive(Clone, Copy)]
pub struct Row {
    pub entries: [u32; 8],
}
