//! A program that prints what is read of pages, sheets, selectors and tokens. Reads the examples of a table, a line each, and
//! prints what is read of each below it. A line that begins with `# ` is a heading; where it begins with `# pages`, `# forests`,
//! `# sheets`, `# selectors`, `# lists` or `# tokens`, it says what the lines behind it are.
#![tactic(auto)]

mod pages;
mod selectors;
mod sheets;
mod tokens;

use row_text::bytes_of;
use std::alloc::{AllocError, Global};
use std::io;

// What a line of the table is.
#[derive(Clone, Copy)]
enum Kind {
    Page,
    Forest,
    Sheet,
    Selector,
    List,
    Tokens,
}

static HEADINGS: [(&str, Kind); 6] = [
    ("# pages", Kind::Page),
    ("# forests", Kind::Forest),
    ("# sheets", Kind::Sheet),
    ("# selectors", Kind::Selector),
    ("# lists", Kind::List),
    ("# tokens", Kind::Tokens),
];

fn main(rt: HostRuntime) -> io::Result<()> {
    let mut kind = Kind::Page;
    for line in rt.lines(rt.alloc()) {
        kind = told(&rt, kind, line?.as_str())?;
    }
    Ok(())
}

// Prints a line and what is read of it, and says what the next line is.
fn told(rt: &(impl Print + AllocGlobal), kind: Kind, line: &str) -> io::Result<Kind> {
    if line.is_empty() || line.starts_with("# ") {
        rt.println(line)?;
        return Ok(kind_of(line, kind));
    }
    let text = bytes_of(rt.alloc(), line)?;
    let answer = answer_of(rt.alloc(), kind, &text)?;
    println!(rt; "{line}{answer}")?;
    Ok(kind)
}

fn kind_of(line: &str, before: Kind) -> Kind {
    for (heading, kind) in &HEADINGS {
        if line.starts_with(*heading) {
            return *kind;
        }
    }
    before
}

// What is read of a text, in lines that each begin with a line feed.
fn answer_of(alloc: Global, kind: Kind, text: &[u8]) -> Result<String, AllocError> {
    match kind {
        Kind::Page => pages::page(alloc, text),
        Kind::Forest => pages::forest(alloc, text),
        Kind::Sheet => sheets::sheet(alloc, text),
        Kind::Selector => selectors::selector(alloc, text),
        Kind::List => selectors::list(alloc, text),
        Kind::Tokens => tokens::tokens(alloc, text),
    }
}
