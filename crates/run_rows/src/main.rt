//! A program that runs the command on files in memory. Runs the command over files in memory, as a table says, and prints how each run ends.
//!
//! The table's lines: `== NAME` begins an example, `-- file NAME` a file, whose lines follow; `-- loads N ..`,
//! `-- puts N ..` and `-- errors N ..` say which loads, puts on `out` and puts on `err` fail, and `-- most N` how many
//! bytes a put takes. `-- run WORD ..` runs the command, and what it says is printed behind its status; `-- status
//! WORD ..` does the same, and leaves the report out. Other lines say nothing. What stands in brackets is spelt as
//! `row_text` says, in files and in words.
#![tactic(auto)]

mod examples;
mod runs;

use examples::Example;
use std::io;

fn main(rt: HostRuntime) -> io::Result<()> {
    let mut example = Example::new(rt.alloc());
    for line in rt.lines(rt.alloc()) {
        told(&rt, &mut example, line?.as_str())?;
    }
    Ok(())
}

// Takes a line, and prints it with what comes of it, unless it is a file's.
fn told(rt: &(impl Print + AllocGlobal), example: &mut Example, line: &str) -> io::Result<()> {
    if let Some(words) = line.strip_prefix("-- run") {
        return ran(rt, example, line, words, true);
    }
    if let Some(words) = line.strip_prefix("-- status") {
        return ran(rt, example, line, words, false);
    }
    if example.take(line)? {
        rt.println(line)?;
    }
    Ok(())
}

fn ran(
    rt: &(impl Print + AllocGlobal),
    example: &mut Example,
    line: &str,
    words: &str,
    is_whole: bool,
) -> io::Result<()> {
    example.end_file();
    let ended = runs::run(rt.alloc(), example, words, is_whole)?;
    println!(rt; "{line}\n{ended}")
}
