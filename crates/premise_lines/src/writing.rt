//! What is found, written line by line.
ghost use Rattle.std.specs.Prelude.{◌≡◌, ◌≤◌, length};
ghost use Rattle.tp_base.specs.declared.places.TheConstants.{MOST_BYTES};
ghost use Rattle.premise_lines.specs.Lines as spec;
ghost use Rattle.premise_lines.specs.Runs as run;
ghost use Rattle.premise_lines.specs.Tells.{put_of};

use crate::lines::{HEADER, line_of};
use crate::report::Report;
use crate::stops::{Part, Status, Stop};
use premise_finds::Finding;
use std::alloc::Global;
use tp_base::Cursor;
use tp_io::{Sink, SinkFault, put_all};

// Writes a piece.
fn put<O: Sink>(piece: &[u8], out: &mut O) -> Result<(), Stop>
    ensures { run.Writes piece.now (put_of (O.written out.old) (O.written out.new) (O.faults out.old) (O.faults out.new)) result }
{
    match put_all(out, piece) {
        Ok(()) => Ok(()),
        Err(SinkFault::Failed) => Err(Stop::WriteFault),
        Err(SinkFault::Memory) => Err(Stop::NoMemory),
    }
}

// Writes the lines of a file's findings, each in one piece. Linear in the file, and in what is found.
fn write_lines<O: Sink>(
    alloc: Global,
    part: Part,
    text: &[u8],
    found: &[Finding],
    out: &mut O,
) -> Result<(), Stop>
    requires { length text.now ≤ MOST_BYTES }
    ensures { run.Writes (spec.lines_of part text.now found.now) (put_of (O.written out.old) (O.written out.new) (O.faults out.old) (O.faults out.new)) result }
{
    let mut cursor = Cursor::new();
    let mut left = found;
    'findings: while let Some((finding, others)) = left.split_first() {
        let line = line_of(alloc, part, text, finding, &mut cursor)?;
        put(&line, out)?;
        left = others;
    }
    Ok(())
}

fn status_of(report: &Report) -> Status
    ensures { result ≡ run.status_of report.now }
{
    match (report.in_page.items(), report.in_sheet.items()) {
        ([], []) => Status::Clear,
        _ => Status::Found,
    }
}

/// Writes the first line, and a line for each finding, each in one piece. Linear in the texts, and in what is found.
pub(crate) fn write<O: Sink>(alloc: Global, report: &Report, out: &mut O) -> Result<Status, Stop>
    ensures { run.WritesWith (spec.report_of report.now) (run.status_of report.now) (put_of (O.written out.old) (O.written out.new) (O.faults out.old) (O.faults out.new)) result }
{
    put(HEADER, out)?;
    let in_page = report.in_page.items();
    write_lines(alloc, Part::Page, report.page.items(), in_page, out)?;
    let in_sheet = report.in_sheet.items();
    write_lines(alloc, Part::Sheet, report.sheet.items(), in_sheet, out)?;
    Ok(status_of(report))
}
