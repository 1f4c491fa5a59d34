//! Runs of the command over a sheet in memory.
use crate::wanting::Wanting;
use row_text::{bytes_of, push_pictured};
use std::alloc::{AllocError, Global};
use tp_io::{MemFiles, MemSink};
use widen_sheet::widen_command;

// How many bytes a put takes, where nothing else is said.
const MOST: usize = 1000;

/// What a run says: its status, and what went to `out` and to `err`, a line each. The head is `run`, and may have behind it
/// `load N`, where that load fails, `put N` and `want N`, where that put on `out` fails or wants memory, `error N` and `lack N`,
/// where that put on `err` does, and `most N`, where a put on `out` takes so many bytes. The row has the words, with commas
/// between them, and the text of the file `sheet`.
pub(crate) fn said_of_run(alloc: Global, head: &str, row: &str) -> Result<String, AllocError> {
    let (words, sheet) = row.split_once(" │ ").unwrap_or(("", row));
    let words = words_of(alloc, words)?;
    let mut files = files_of(alloc, numbers(alloc, head, "load ")?, sheet)?;
    let most = number(head, "most ").map_or(MOST, |most| most as usize);
    let out = MemSink::new(alloc, numbers(alloc, head, "put ")?, most);
    let err = MemSink::new(alloc, numbers(alloc, head, "error ")?, MOST);
    let mut out = Wanting::new(out, number(head, "want "));
    let mut err = Wanting::new(err, number(head, "lack "));
    let status = widen_command(alloc, &words, &mut files, &mut out, &mut err);
    let mut said = format!(in alloc; "  status {}", status.code())?;
    push_said(&mut said, "\n  ", out.inner().bytes())?;
    push_said(&mut said, "\n  err: ", err.inner().bytes())?;
    Ok(said)
}

// The number behind a word of the head, if it has the word.
fn number(head: &str, word: &str) -> Option<u64> {
    let (_, behind) = head.split_once(word)?;
    let digits = behind.split(' ').next()?;
    digits.parse().ok()
}

fn numbers(alloc: Global, head: &str, word: &str) -> Result<Vec<u64>, AllocError> {
    let mut numbers = Vec::new(alloc);
    if let Some(number) = number(head, word) {
        numbers.push(number)?;
    }
    Ok(numbers)
}

fn words_of(alloc: Global, text: &str) -> Result<Vec<String>, AllocError> {
    let mut words = Vec::new(alloc);
    if !text.is_empty() {
        for word in text.split(", ") {
            words.push(String::from_str(alloc, word)?)?;
        }
    }
    Ok(words)
}

fn files_of(alloc: Global, fail: Vec<u64>, sheet: &str) -> Result<MemFiles, AllocError> {
    let mut entries = Vec::new(alloc);
    entries.push((String::from_str(alloc, "sheet")?, bytes_of(alloc, sheet)?))?;
    Ok(MemFiles::new(alloc, entries, fail))
}

// What a sink took, behind what stands in front of it, if it took anything.
fn push_said(said: &mut String, front: &str, bytes: &[u8]) -> Result<(), AllocError> {
    if bytes.is_empty() {
        return Ok(());
    }
    said.push_str(front)?;
    push_pictured(said, bytes)
}
