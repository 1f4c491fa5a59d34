//! A table of widened sheets, and of runs of `widen`, run as a program. Widens sheets from a table, a line each behind `w` and a
//! bar, and puts sheets back behind `b` and a bar. Prints each line, and below it what is written; of a sheet that is widened also
//! what it is put back to. A line that begins with `run` runs the command over a sheet in memory, and what that says is printed. A
//! line without a bar is a heading.
#![tactic(auto)]

mod runs;
mod wanting;

use row_text::{bytes_of, push_pictured};
use runs::said_of_run;
use std::alloc::{AllocError, Global};
use std::io;
use tp_base::MOST_BYTES;
use widen_sheet::{BackFault, WidenFault, put_back, widen};

fn main(rt: HostRuntime) -> io::Result<()> {
    for line in rt.lines(rt.alloc()) {
        tell(&rt, line?.as_str())?;
    }
    Ok(())
}

fn tell(rt: &(impl Print + AllocGlobal), line: &str) -> io::Result<()> {
    rt.println(line)?;
    match line.split_once(" │ ") {
        None => Ok(()),
        Some((kind, row)) => {
            let said = if kind.starts_with("run") {
                said_of_run(rt.alloc(), kind, row)?
            } else {
                said_of_sheet(rt.alloc(), kind, row)?
            };
            println!(rt; "{said}")
        }
    }
}

fn said_of_sheet(alloc: Global, way: &str, sheet: &str) -> Result<String, AllocError> {
    let text = bytes_of(alloc, sheet)?;
    if way == "b" {
        back_of(alloc, &text)
    } else {
        wide_of(alloc, &text)
    }
}

// The widened sheet, and what it is put back to, a line each.
fn wide_of(alloc: Global, text: &[u8]) -> Result<String, AllocError> {
    match widened(alloc, text) {
        Ok(wide) => {
            let mut out = String::new(alloc);
            out.push_str("  ")?;
            push_pictured(&mut out, &wide)?;
            out.push_str("\n")?;
            let back = back_of(alloc, &wide)?;
            out.push_str(&back)?;
            Ok(out)
        }
        Err(fault) => format!(in alloc; "  {fault:?}"),
    }
}

fn widened(alloc: Global, text: &[u8]) -> Result<Vec<u8>, WidenFault> {
    if text.len() > MOST_BYTES as usize {
        return Err(WidenFault::TooLarge);
    }
    widen(alloc, text)
}

fn back_of(alloc: Global, text: &[u8]) -> Result<String, AllocError> {
    match put_back(alloc, text) {
        Ok(back) => {
            let mut out = String::new(alloc);
            out.push_str("  ")?;
            push_pictured(&mut out, &back)?;
            Ok(out)
        }
        Err(fault) => told(alloc, fault),
    }
}

fn told(alloc: Global, fault: BackFault) -> Result<String, AllocError> {
    format!(in alloc; "  {fault:?}")
}
