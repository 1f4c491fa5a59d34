//! A program that prints pruned sheets. Reads sheets from a table, a line each: the selectors that are unused, a bar, and the
//! sheet. Prints each line, and below it what is left of the sheet. A line without a bar is a heading.
#![tactic(auto)]

mod flags;

use css_prune::prune;
use css_read::{SheetFault, read_sheet};
use flags::flags_of;
use row_text::{bytes_of, push_pictured};
use std::alloc::{AllocError, Global};
use std::io;
use tp_base::{AtomTable, MOST_BYTES};

fn main(rt: HostRuntime) -> io::Result<()> {
    for line in rt.lines(rt.alloc()) {
        tell(&rt, line?.as_str())?;
    }
    Ok(())
}

fn tell(rt: &(impl Print + AllocGlobal), line: &str) -> io::Result<()> {
    rt.println(line)?;
    match line.split_once(" │ ") {
        None => Ok(()),
        Some((unused, sheet)) => {
            let text = bytes_of(rt.alloc(), sheet)?;
            let answer = answer_of(rt.alloc(), unused, &text)?;
            println!(rt; "  {answer}")
        }
    }
}

fn answer_of(alloc: Global, unused: &str, text: &[u8]) -> Result<String, AllocError> {
    let mut out = String::new(alloc);
    match left_of(alloc, unused, text) {
        Ok(left) => push_pictured(&mut out, &left)?,
        Err(fault) => {
            let said = format!(in alloc; "{fault:?}")?;
            out.push_str(&said)?;
        }
    }
    Ok(out)
}

fn left_of(alloc: Global, unused: &str, text: &[u8]) -> Result<Vec<u8>, SheetFault> {
    if text.len() > MOST_BYTES as usize {
        return Err(SheetFault::Memory);
    }
    let mut atoms = AtomTable::new(alloc);
    let sheet = read_sheet(alloc, text, &mut atoms)?;
    let flags = flags_of(alloc, unused, text, sheet.items.items())?;
    Ok(prune(alloc, text, &sheet, flags.as_slice())?)
}
