// Calls read from text.
use anyhow::anyhow;
use histories::call::TableCall;
use sets::{ValueSet, single};
use std::alloc::Global;
use std::str::SplitWhitespace;

// What a Read is given: so many bytes of this value.
const UNWRITTEN: u8 = 255;

// The set of the values, each a word.
fn parse_set(words: SplitWhitespace<'_>) -> anyhow::Result<ValueSet> {
    let mut set = 0;
    for word in words {
        set |= single(word.parse::<u32>()?);
    }
    Ok(set)
}

// Bytes, each a word in base sixteen.
fn parse_bytes(heap: Global, words: SplitWhitespace<'_>) -> anyhow::Result<Vec<u8>> {
    let mut bytes = Vec::new(heap);
    for word in words {
        bytes.push(u8::from_str_radix(word, 16)?)?;
    }
    Ok(bytes)
}

// The number that the next word is.
fn parse_number(mut words: SplitWhitespace<'_>) -> anyhow::Result<u64> {
    match words.next() {
        Some(word) => Ok(word.parse::<u64>()?),
        None => Err(anyhow!("a number is missing")),
    }
}

// A buffer of so many bytes.
fn parse_buffer(heap: Global, words: SplitWhitespace<'_>) -> anyhow::Result<Vec<u8>> {
    let length = usize::try_from(parse_number(words)?)?;
    Ok(vec![in heap; UNWRITTEN; length]?)
}

// A call: its name, and what it is given.
fn parse_call(heap: Global, text: &str) -> anyhow::Result<TableCall> {
    let mut words = text.split_whitespace();
    let Some(name) = words.next() else {
        return Err(anyhow!("a call is missing"));
    };
    match name {
        "declare" => Ok(TableCall::Declare(parse_set(words)?)),
        "post" => Ok(TableCall::Post(parse_bytes(heap, words)?)),
        "solve" => Ok(TableCall::Solve(parse_number(words)?)),
        "read" => Ok(TableCall::Read(parse_buffer(heap, words)?)),
        "wipe" => Ok(TableCall::Wipe),
        _ => Err(anyhow!("no such call")),
    }
}

// Adds the calls of a line: one call, or `COUNT times` the same.
fn parse_line(heap: Global, line: &str, calls: &mut Vec<TableCall>) -> anyhow::Result<()> {
    let (count, call) = match line.split_once(" times ") {
        Some((number, call)) => (number.parse::<u32>()?, call),
        None => (1, line),
    };
    for _ in 0..count {
        calls.push(parse_call(heap, call)?)?;
    }
    Ok(())
}

// The calls of a text. An empty line, and one that begins with #, has none.
pub(crate) fn parse_calls(heap: Global, text: &str) -> anyhow::Result<Vec<TableCall>> {
    let mut calls = Vec::new(heap);
    for line in text.lines() {
        if !line.is_empty() && !line.starts_with("#") {
            parse_line(heap, line, &mut calls)?;
        }
    }
    Ok(calls)
}
