//! The command where nothing fails, and where standard error has its room from the start.
ghost use Rattle.std.specs.Prelude.{map, string_bytes, IfOk};
ghost use Rattle.run_tests.specs.SureRuns as spec;

use crate::room_sink::RoomSink;
use std::alloc::{AllocError, Global};
use tp_io::{Files, Sink, SureFiles, SureSink};
use treeped_app::{Status, treeped};

/// Runs the command over files and sinks that never fail. What it answers is a report, but where the files or the words are refused;
/// or memory wants.
pub fn sure_run(
    alloc: Global,
    words: &[String],
    files: &mut SureFiles,
    out: &mut SureSink,
    err: &mut SureSink,
) -> Status
    ensures { spec.IsSure (spec.sure_run (map string_bytes words.now) files.old files.new (spec.sure_put out.old out.new)) (spec.sure_put err.old err.new) result }
{
    treeped(alloc, words, files, out, err)
}

/// Runs the command with a standard error that has its room from the start, and answers the status and what it got.
pub fn errors_of<F: Files, O: Sink>(
    alloc: Global,
    words: &[String],
    files: &mut F,
    out: &mut O,
) -> Result<(Status, Vec<u8>), AllocError>
    ensures { IfOk result (λ r. spec.IsHeard r.0 r.1.items) }
{
    let mut err = RoomSink::new(alloc)?;
    let status = treeped(alloc, words, files, out, &mut err);
    Ok((status, err.into_bytes()))
}
