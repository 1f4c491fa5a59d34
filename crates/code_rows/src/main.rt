//! A table of tokens of real JavaScript, run as a program. Reads the examples of a table, a line each, and prints the tokens of
//! each below it, as `code_tokens` reads them, and the offsets at which it isn't sure what is meant. A line that begins with `# `
//! is a heading.
#![tactic(auto)]

mod tokens;

use row_text::bytes_of;
use std::io;

fn main(rt: HostRuntime) -> io::Result<()> {
    for line in rt.lines(rt.alloc()) {
        tell(&rt, line?.as_str())?;
    }
    Ok(())
}

// Prints a line and what is read of it.
fn tell(rt: &(impl Print + AllocGlobal), line: &str) -> io::Result<()> {
    if line.is_empty() || line.starts_with("# ") {
        rt.println(line)?;
        return Ok(());
    }
    let text = bytes_of(rt.alloc(), line)?;
    let answer = tokens::answer(rt.alloc(), &text)?;
    println!(rt; "{line}{answer}")?;
    Ok(())
}
