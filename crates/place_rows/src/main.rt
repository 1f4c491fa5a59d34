//! A table of what stands at tokens of real JavaScript, run as a program. Reads the examples of a table, a line each, and prints below it
//! each name, text and computed member of one with what it is there, as `code_places` tells it. A line that begins with `# ` is a heading.
#![tactic(auto)]

mod places;

use row_text::bytes_of;
use std::io;

fn main(rt: HostRuntime) -> io::Result<()> {
    for line in rt.lines(rt.alloc()) {
        tell(&rt, line?.as_str())?;
    }
    Ok(())
}

// Prints a line and what is read of it.
fn tell(rt: &(impl Print + AllocGlobal), line: &str) -> io::Result<()> {
    if line.is_empty() || line.starts_with("# ") {
        rt.println(line)?;
        return Ok(());
    }
    let text = bytes_of(rt.alloc(), line)?;
    let answer = places::answer(rt.alloc(), &text)?;
    println!(rt; "{line}{answer}")?;
    Ok(())
}
