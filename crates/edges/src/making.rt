// Books made up for a case.
use std::alloc::{AllocError, Global};

// A sheet of so many equality rules, each with one row of the constant 0 and no pairs.
pub fn plain_sheet(heap: Global, rules: u32) -> Result<Vec<u32>, AllocError> {
    let mut words = vec![in heap; 1, rules]?;
    for _rule in 0..rules {
        words.extend_from_slice(&[2, 1, 0, 0, 0])?;
    }
    Ok(words)
}

// A key list of so many bytes, each with the first column's bit.
pub fn key_bytes(heap: Global, count: usize) -> Result<Vec<u8>, AllocError> {
    Ok(vec![in heap; 1u8; count]?)
}
