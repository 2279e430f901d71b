// Numbers in decimal, as a person types them.
use anyhow::anyhow;
use std::alloc::Global;
use std::str::FromStr;

// The words of a sheet: the first line.
pub fn sheet_words(heap: Global, line: &str) -> anyhow::Result<Vec<u32>> {
    let mut words = Vec::new(heap);
    for (place, word) in (1..).zip(line.split_whitespace()) {
        words.push(number(1, place, word, "a number from 0 to 4294967295")?)?;
    }
    Ok(words)
}

// A key list, a width and bytes: the second line.
pub fn key_list(heap: Global, line: &str) -> anyhow::Result<(usize, Vec<u8>)> {
    let mut words = line.split_whitespace();
    let width = number(2, 1, words.next().unwrap_or(""), "a width")?;
    let mut bytes = Vec::new(heap);
    for (place, word) in (2..).zip(words) {
        bytes.push(number(2, place, word, "a byte from 0 to 255")?)?;
    }
    Ok((width, bytes))
}

// The number that a word writes, or what is wrong, by its line and word, both from 1.
fn number<N: FromStr>(line: usize, place: usize, word: &str, wanted: &str) -> anyhow::Result<N>
where
    N::Err: Drop,
{
    word.parse().map_err(|_| anyhow!("line {line}, word {place}: '{word}' is not {wanted}"))
}
