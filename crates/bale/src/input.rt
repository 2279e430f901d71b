// Where a text comes from.
use anyhow::anyhow;
use std::fs;
use std::io::Read;

pub fn read_input(rt: &HostRuntime) -> anyhow::Result<Vec<u8>> {
    let mut text = Vec::new(rt.alloc());
    rt.stdin().read_to_end(&mut text)?;
    Ok(text)
}

pub fn read_file(rt: &HostRuntime, path: &str) -> anyhow::Result<Vec<u8>> {
    fs::read(rt, path).map_err(|_| anyhow!("cannot read the file '{path}'"))
}
