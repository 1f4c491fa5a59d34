//! A run of the command over an example.
use crate::examples::{Example, MOST};
use row_text::bytes_of;
use std::alloc::{AllocError, Global};
use tp_io::{MemFiles, MemSink};
use treeped_app::{Status, treeped};

/// How a run with these words ends: its status, what went to `out` if that is wanted, and what went to `err`.
pub(crate) fn run(
    alloc: Global,
    example: &Example,
    words: &str,
    is_whole: bool,
) -> Result<String, AllocError> {
    let mut out = MemSink::new(alloc, numbers(alloc, &example.puts)?, example.most);
    let mut err = MemSink::new(alloc, numbers(alloc, &example.errors)?, MOST);
    let status = ended(alloc, example, words, &mut out, &mut err)?;
    let report: &[u8] = if is_whole { out.bytes() } else { b"" };
    told(alloc, status.code(), report, err.bytes())
}

fn ended(
    alloc: Global,
    example: &Example,
    words: &str,
    out: &mut MemSink,
    err: &mut MemSink,
) -> Result<Status, AllocError> {
    let words = words_of(alloc, words)?;
    let mut files = files_of(alloc, example)?;
    Ok(treeped(alloc, &words, &mut files, out, err))
}

// What stands in brackets is spelt out, as in a file.
fn words_of(alloc: Global, text: &str) -> Result<Vec<String>, AllocError> {
    let spelt = bytes_of(alloc, text)?;
    let mut words = Vec::new(alloc);
    for word in str::from_utf8(&spelt).unwrap_or("").split_whitespace() {
        words.push(String::from_str(alloc, word)?)?;
    }
    Ok(words)
}

fn files_of(alloc: Global, example: &Example) -> Result<MemFiles, AllocError> {
    let entries = entries(alloc, &example.files)?;
    Ok(MemFiles::new(alloc, entries, numbers(alloc, &example.loads)?))
}

fn entries(
    alloc: Global,
    files: &[(String, Vec<u8>)],
) -> Result<Vec<(String, Vec<u8>)>, AllocError> {
    let mut entries = Vec::new(alloc);
    for (name, text) in files {
        entries.push(entry(alloc, name, text)?)?;
    }
    Ok(entries)
}

fn entry(alloc: Global, name: &str, text: &[u8]) -> Result<(String, Vec<u8>), AllocError> {
    Ok((
        String::from_str(alloc, name)?,
        Vec::from_slice(alloc, text)?,
    ))
}

fn numbers(alloc: Global, numbers: &[u64]) -> Result<Vec<u64>, AllocError> {
    Vec::from_slice(alloc, numbers)
}

fn told(alloc: Global, status: u8, out: &[u8], err: &[u8]) -> Result<String, AllocError> {
    let mut text = format!(in alloc; "status {status}")?;
    push_lines(&mut text, "\n", out)?;
    push_lines(&mut text, "\nerr: ", err)?;
    Ok(text)
}

// Each line behind what stands in front of it.
fn push_lines(text: &mut String, front: &str, bytes: &[u8]) -> Result<(), AllocError> {
    for line in str::from_utf8(bytes).unwrap_or("not utf-8").lines() {
        text.push_str(front)?;
        text.push_str(line)?;
    }
    Ok(())
}
