//! The command itself.
ghost use Rattle.std.specs.Prelude.{◌≡◌, map, string_bytes};
ghost use Rattle.premise_lines.specs.Runs.{Ordered, IsRun};
ghost use Rattle.premise_lines.specs.Tells.{SaysWhy, put_of};

use crate::found::find;
use crate::loading::load_both;
use crate::report::Report;
use crate::stops::{Status, Stop};
use crate::telling::tell;
use crate::words::read_words;
use crate::writing::write;
use std::alloc::Global;
use tp_io::{Files, Sink};

// Reads the words, and finds what they ask for.
fn read<F: Files>(alloc: Global, words: &[String], files: &mut F) -> Result<Report, Stop>
    ensures { Ordered (F.told files.old) (map string_bytes words.now) (F.loads files.old) (F.loads files.new) result }
{
    let order = read_words(alloc, words)?;
    let texts = load_both(alloc, &order, files)?;
    find(alloc, order.excepted.items(), texts)
}

/// Runs the command with the words after the program's name: loads the page and the sheet, and writes to `out` a first line, and a
/// line for each finding whose name isn't excepted, each in one piece. Where nothing is written, or not all, it says why on `err`.
/// It costs what reading the page and the sheet costs.
pub fn premises_command<F: Files, O: Sink, E: Sink>(
    alloc: Global,
    words: &[String],
    files: &mut F,
    out: &mut O,
    err: &mut E,
) -> Status
    ensures ended { IsRun (F.told files.old) (map string_bytes words.now) (F.loads files.old) (F.loads files.new)
        (put_of (O.written out.old) (O.written out.new) (O.faults out.old) (O.faults out.new))
        (put_of (E.written err.old) (E.written err.new) (E.faults err.old) (E.faults err.new)) result }
    ensures says_why { SaysWhy E.wants_memory (put_of (E.written err.old) (E.written err.new) (E.faults err.old) (E.faults err.new)) result }
{
    match read(alloc, words, files) {
        Ok(report) => match write(alloc, &report, out) {
            Ok(status) => status,
            Err(stop) => tell(alloc, stop, err),
        },
        Err(stop) => tell(alloc, stop, err),
    }
}
