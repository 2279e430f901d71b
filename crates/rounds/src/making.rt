// Texts made up for a case.
use std::alloc::{AllocError, Global};

// No rules, and so many targets that always follow.
pub fn many_targets(heap: Global, count: usize) -> Result<Vec<u8>, AllocError> {
    let mut text = Vec::new(heap);
    text.extend_from_slice(b"width 1\nrules 0\ntargets 256\n")?;
    for _target in 0..count {
        text.extend_from_slice(b"equality\nrows 1\n$a\npairs 0\n")?;
    }
    Ok(text)
}

// A text of so many bytes that would spell no rules and no targets. `readings` has one too, which is a crate of tests.
pub fn long_text(heap: Global, size: usize) -> Result<Vec<u8>, AllocError> {
    let mut text = Vec::new(heap);
    text.extend_from_slice(b"width 1\nrules 0\ntargets 0")?;
    text.resize(size, b' ')?;
    Ok(text)
}
