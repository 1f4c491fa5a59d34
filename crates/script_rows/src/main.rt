//! A program that prints what is read of scripts. Reads the examples of a table, a line each, and prints what is read of each
//! below it. A line that begins with `# ` is a heading; where it begins as one of `HEADINGS`, it says what the lines behind it
//! are.
#![tactic(auto)]

mod faults;
mod letters;
mod marks;
mod parts;
mod places;
mod scripts;
mod words;

use faults::refused;
use jq_words::ScriptFault;
use letters::{OfLetters, of_letters};
use parts::{OfParts, of_parts};
use row_text::bytes_of;
use scripts::{OfScript, of_script};
use std::alloc::{AllocError, Global};
use std::io;
use words::{OfWords, of_words};

// What a line of the table is.
#[derive(Clone, Copy)]
enum Kind {
    Script(OfScript),
    Words(OfWords),
    Parts(OfParts),
    Letters(OfLetters),
}

static HEADINGS: [(&str, Kind); 17] = [
    ("# scripts", Kind::Script(OfScript::Places)),
    ("# statements", Kind::Script(OfScript::Actions)),
    ("# sharp", Kind::Script(OfScript::Marks)),
    ("# expressions", Kind::Words(OfWords::BehindList)),
    ("# joined", Kind::Words(OfWords::Joined)),
    ("# closed", Kind::Words(OfWords::Closed)),
    ("# declared", Kind::Words(OfWords::Declared)),
    ("# lengths", Kind::Words(OfWords::Lengths)),
    ("# lists", Kind::Parts(OfParts::List)),
    ("# roots", Kind::Parts(OfParts::Begun)),
    ("# arguments", Kind::Parts(OfParts::Argument)),
    ("# markup", Kind::Parts(OfParts::Grown)),
    ("# targets", Kind::Parts(OfParts::Aimed)),
    ("# chains", Kind::Parts(OfParts::Chained)),
    ("# parameters", Kind::Parts(OfParts::Hidden)),
    ("# letters", Kind::Letters(OfLetters::Chosen)),
    ("# places", Kind::Letters(OfLetters::Standing)),
];

fn main(rt: HostRuntime) -> io::Result<()> {
    let mut kind = Kind::Script(OfScript::Places);
    for line in rt.lines(rt.alloc()) {
        kind = told(&rt, kind, line?.as_str())?;
    }
    Ok(())
}

// Prints a line and what is read of it, and says what the next line is.
fn told(rt: &(impl Print + AllocGlobal), kind: Kind, line: &str) -> io::Result<Kind> {
    if line.is_empty() || line.starts_with("# ") {
        rt.println(line)?;
        return Ok(kind_of(line, kind));
    }
    let text = bytes_of(rt.alloc(), line)?;
    let answer = shown(rt.alloc(), answer_of(rt.alloc(), kind, &text))?;
    println!(rt; "{line}\n  {}", answer.trim_end())?;
    Ok(kind)
}

fn kind_of(line: &str, before: Kind) -> Kind {
    for (heading, kind) in &HEADINGS {
        if line.starts_with(*heading) {
            return *kind;
        }
    }
    before
}

fn answer_of(alloc: Global, kind: Kind, text: &[u8]) -> Result<String, ScriptFault> {
    match kind {
        Kind::Script(case) => of_script(alloc, case, text),
        Kind::Words(case) => of_words(alloc, case, text),
        Kind::Parts(case) => of_parts(alloc, case, text),
        Kind::Letters(case) => of_letters(alloc, case, text),
    }
}

fn shown(alloc: Global, answer: Result<String, ScriptFault>) -> Result<String, AllocError> {
    match answer {
        Ok(text) if text.is_empty() => String::from_str(alloc, "nothing"),
        Ok(text) => Ok(text),
        Err(fault) => refused(alloc, &fault),
    }
}
