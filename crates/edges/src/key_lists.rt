// Key lists at their edges.
use crate::making::key_bytes;
use crate::saying::print_book;
use keys::checking::check;
use keys::key_list::KeyList;
use std::io;

fn print_keys(rt: &HostRuntime, case: &str, width: usize, bytes: &[u8]) -> io::Result<()> {
    print_book(rt, case, check(width, bytes), &KeyList::open(width, bytes))
}

pub fn print_key_lists(rt: &HostRuntime) -> anyhow::Result<()> {
    print_keys(rt, "key width 0", 0, &[])?;
    print_keys(rt, "key width 1", 1, &[1, 1])?;
    print_keys(rt, "key width 8", 8, &[255, 255])?;
    print_keys(rt, "key width 9", 9, &[1, 1])?;
    print_keys(rt, "greatest key width", usize::MAX, &[])?;
    print_keys(rt, "no pairs", 3, &[])?;
    print_keys(rt, "empty columns", 3, &[0, 0])?;
    print_keys(rt, "a left bit at the width", 3, &[1, 2, 8, 1])?;
    print_keys(rt, "a right bit at the width", 3, &[1, 2, 7, 8])?;
    print_keys(rt, "odd length", 3, &[1, 2, 255])?;
    let most = key_bytes(rt.alloc(), 512)?;
    print_keys(rt, "256 pairs", 1, most.as_slice())?;
    let more = key_bytes(rt.alloc(), 513)?;
    print_keys(rt, "513 bytes", 1, more.as_slice())?;
    Ok(())
}
