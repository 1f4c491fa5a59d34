//! A table of sources in pages and in markup, run as a program. Reads a table, a line each: `page`, perhaps with names of scripts, or
//! `markup`, a bar, and the text. Prints each line, and below it the sources, a line each: its kind, its place, `unsure` where it is that, and its
//! text, in which `○` is a hole. A line without a bar is a heading.
#![tactic(auto)]

use code_sources::{HOLE, Kind, Source, sources_in_markup, sources_in_page};
use row_text::{bytes_of, push_pictured};
use std::alloc::{AllocError, Global};
use std::io;
use tp_base::{Items, NoMemory};

fn main(rt: HostRuntime) -> io::Result<()> {
    for line in rt.lines(rt.alloc()) {
        tell(&rt, line?.as_str())?;
    }
    Ok(())
}

fn tell(rt: &(impl Print + AllocGlobal), line: &str) -> io::Result<()> {
    rt.println(line)?;
    match line.split_once(" │ ") {
        None => Ok(()),
        Some((kind, row)) => {
            let text = bytes_of(rt.alloc(), row)?;
            let said = said_of(rt.alloc(), kind, &text)?;
            rt.print(&said)
        }
    }
}

fn said_of(alloc: Global, kind: &str, text: &[u8]) -> Result<String, AllocError> {
    let mut out = String::new(alloc);
    match sources_of(alloc, kind, text) {
        Ok(found) => {
            for source in found.items() {
                push_source(&mut out, source)?;
            }
        }
        Err(_) => out.push_str("  no memory\n")?,
    }
    Ok(out)
}

fn sources_of(alloc: Global, kind: &str, text: &[u8]) -> Result<Items<Source>, NoMemory> {
    if kind == "markup" {
        return sources_in_markup(alloc, text);
    }
    let mut names = Vec::new(alloc);
    for word in kind.split_whitespace() {
        names.push(word.as_bytes())?;
    }
    sources_in_page(alloc, &names, text)
}

fn push_source(out: &mut String, source: &Source) -> Result<(), AllocError> {
    out.push_str(match source.kind {
        Kind::Script => "  script ",
        Kind::Template => "  template ",
        Kind::Value => "  value ",
        Kind::Holed => "  holed ",
        Kind::Unseen => "  unseen ",
    })?;
    let digits = source.place.to_string(*out.allocator())?;
    out.push_str(digits.as_str())?;
    out.push_str(if source.is_sure { ": " } else { " unsure: " })?;
    push_holed(out, source.text.items())?;
    out.push_str("\n")
}

// Puts a text behind a line, with a ring for each hole.
fn push_holed(out: &mut String, text: &[u8]) -> Result<(), AllocError> {
    let mut letters = Vec::new(*out.allocator());
    for byte in text {
        if *byte == HOLE {
            letters.extend_from_slice("○".as_bytes())?;
        } else {
            letters.push(*byte)?;
        }
    }
    push_pictured(out, &letters)
}
