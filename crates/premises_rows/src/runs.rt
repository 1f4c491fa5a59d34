//! Runs of the command over files in memory.
use premise_lines::premises_command;
use row_text::{bytes_of, push_pictured};
use std::alloc::{AllocError, Global};
use tp_io::{MemFiles, MemSink};

// How many bytes a put takes, where nothing else is said.
const MOST: usize = 1000;

/// What a run says: its status, and what went to `out` and to `err`, line by line. The head is `run`, and may have behind it `load N`,
/// `put N` or `error N`, where that load or put fails, or `most N`, where a put takes so many bytes. The row has the words, with
/// commas between them, the page and the sheet.
pub(crate) fn said_of_run(alloc: Global, head: &str, row: &str) -> Result<String, AllocError> {
    let (words, files) = row.split_once(" │ ").unwrap_or(("", row));
    let mut files = files_of(alloc, numbers(alloc, head, "run load ")?, files)?;
    let most = number(head, "run most ").unwrap_or(MOST);
    let mut out = MemSink::new(alloc, numbers(alloc, head, "run put ")?, most);
    let mut err = MemSink::new(alloc, numbers(alloc, head, "run error ")?, MOST);
    let words = words_of(alloc, words)?;
    let status = premises_command(alloc, &words, &mut files, &mut out, &mut err);
    let mut said = format!(in alloc; "  status {}\n", status.code())?;
    push_lines(&mut said, "  ", out.bytes())?;
    push_lines(&mut said, "  err: ", err.bytes())?;
    Ok(said)
}

fn number(head: &str, front: &str) -> Option<usize> {
    let digits = head.strip_prefix(front)?;
    digits.parse().ok()
}

// The number behind a front, if the head has it.
fn numbers(alloc: Global, head: &str, front: &str) -> Result<Vec<u64>, AllocError> {
    let mut numbers = Vec::new(alloc);
    if let Some(number) = number(head, front) {
        numbers.push(number as u64)?;
    }
    Ok(numbers)
}

fn words_of(alloc: Global, text: &str) -> Result<Vec<String>, AllocError> {
    let mut words = Vec::new(alloc);
    if !text.is_empty() {
        for word in text.split(", ") {
            words.push(String::from_str(alloc, word)?)?;
        }
    }
    Ok(words)
}

fn files_of(alloc: Global, fail: Vec<u64>, texts: &str) -> Result<MemFiles, AllocError> {
    let (page, sheet) = texts.split_once(" │ ").unwrap_or((texts, ""));
    let mut entries = Vec::new(alloc);
    entries.push((String::from_str(alloc, "page")?, bytes_of(alloc, page)?))?;
    entries.push((String::from_str(alloc, "sheet")?, bytes_of(alloc, sheet)?))?;
    Ok(MemFiles::new(alloc, entries, fail))
}

// Each line behind what stands in front of it.
fn push_lines(said: &mut String, front: &str, bytes: &[u8]) -> Result<(), AllocError> {
    for line in str::from_utf8(bytes).unwrap_or("not utf-8").lines() {
        said.push_str(front)?;
        push_pictured(said, line.as_bytes())?;
        said.push_str("\n")?;
    }
    Ok(())
}
