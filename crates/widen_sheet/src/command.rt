//! The command itself.
ghost use Rattle.std.specs.Prelude.{◌≡◌, ◌≤◌, length, map, string_bytes, OnOk};
ghost use Rattle.tp_base.specs.Outcomes.{GivesUnless};
ghost use Rattle.tp_base.specs.declared.places.TheConstants.{MOST_BYTES};
ghost use Rattle.widen_sheet.specs.Command as spec;
ghost use Rattle.widen_sheet.specs.Runs.{OneLoaded, Writes, Answers, Runs, Ordered, IsRun, loaded_text};
ghost use Rattle.widen_sheet.specs.Tells.{SaysWhy, put_of};

use crate::back::put_back;
use crate::stops::{Status, Stop, back_stop, widen_stop};
use crate::telling::tell;
use crate::widening::widen;
use crate::words::{Way, read_words};
use std::alloc::Global;
use tp_io::{Files, LoadFault, Sink, SinkFault, put_all};

// Loads the sheet.
fn load<F: Files>(alloc: Global, name: &str, files: &mut F) -> Result<Vec<u8>, Stop>
    ensures { OneLoaded (F.told files.old) name.now (F.loads files.old) (F.loads files.new) (loaded_text result) }
{
    let mut bytes = Vec::new(alloc);
    match files.load(name, &mut bytes) {
        Ok(()) => Ok(bytes),
        Err(LoadFault::Failed) => Err(Stop::ReadFault),
        Err(LoadFault::TooLarge) => Err(Stop::TooLarge),
        Err(LoadFault::Memory) => Err(Stop::NoMemory),
    }
}

fn widened(alloc: Global, text: &[u8]) -> Result<Vec<u8>, Stop>
    requires { length text.now ≤ MOST_BYTES }
    ensures { GivesUnless Stop.NoMemory (λ v. v.items) result (spec.answer_of Way.Widen text.now) }
{
    match widen(alloc, text) {
        Ok(out) => Ok(out),
        Err(fault) => Err(widen_stop(text, fault)),
    }
}

fn unmarked(alloc: Global, text: &[u8]) -> Result<Vec<u8>, Stop>
    requires { length text.now ≤ MOST_BYTES }
    ensures { GivesUnless Stop.NoMemory (λ v. v.items) result (spec.answer_of Way.Back text.now) }
{
    match put_back(alloc, text) {
        Ok(out) => Ok(out),
        Err(fault) => Err(back_stop(text, fault)),
    }
}

// What is written of a text.
fn answer_of(alloc: Global, way: Way, text: &[u8]) -> Result<Vec<u8>, Stop>
    requires { length text.now ≤ MOST_BYTES }
    ensures { GivesUnless Stop.NoMemory (λ v. v.items) result (spec.answer_of way text.now) }
{
    match way {
        Way::Widen => widened(alloc, text),
        Way::Back => unmarked(alloc, text),
    }
}

fn status_by(text: &[u8], out: &[u8]) -> Status
    ensures { result ≡ spec.status_by text.now out.now }
{
    if out == text {
        Status::Same
    } else {
        Status::Changed
    }
}

// Writes a text in one piece.
fn write<O: Sink>(text: &[u8], written: &[u8], out: &mut O) -> Result<Status, Stop>
    ensures { Writes text.now written.now (put_of (O.written out.old) (O.written out.new) (O.faults out.old) (O.faults out.new)) result }
{
    match put_all(out, written) {
        Ok(()) => Ok(status_by(text, written)),
        Err(SinkFault::Failed) => Err(Stop::WriteFault),
        Err(SinkFault::Memory) => Err(Stop::NoMemory),
    }
}

// Writes what is to be written of a text.
fn run_text<O: Sink>(alloc: Global, way: Way, text: &[u8], out: &mut O) -> Result<Status, Stop>
    requires { length text.now ≤ MOST_BYTES }
    ensures { Answers way text.now (put_of (O.written out.old) (O.written out.new) (O.faults out.old) (O.faults out.new)) result }
{
    match answer_of(alloc, way, text) {
        Ok(written) => write(text, &written, out),
        Err(stop) => Err(stop),
    }
}

// Loads the sheet, and writes what is to be written of it.
fn run_way<F: Files, O: Sink>(
    alloc: Global,
    way: Way,
    name: &str,
    files: &mut F,
    out: &mut O,
) -> Result<Status, Stop>
    ensures { Runs (F.told files.old) way name.now (F.loads files.old) (F.loads files.new)
        (put_of (O.written out.old) (O.written out.new) (O.faults out.old) (O.faults out.new)) result }
{
    match load(alloc, name, files) {
        Ok(text) => run_text(alloc, way, &text, out),
        Err(stop) => Err(stop),
    }
}

// Does what the words ask for.
fn run<F: Files, O: Sink>(
    alloc: Global,
    words: &[String],
    files: &mut F,
    out: &mut O,
) -> Result<Status, Stop>
    ensures { Ordered (F.told files.old) (map string_bytes words.now) (F.loads files.old) (F.loads files.new)
        (put_of (O.written out.old) (O.written out.new) (O.faults out.old) (O.faults out.new)) result }
{
    let (way, name) = read_words(alloc, words)?;
    run_way(alloc, way, name, files, out)
}

/// Runs the command with the words after the program's name: loads the sheet, and writes to `out` in one piece what it is
/// widened or put back to. Where nothing is written, or not the whole, it says why on `err`. Linear in the sheet, in time
/// and in memory.
pub fn widen_command<F: Files, O: Sink, E: Sink>(
    alloc: Global,
    words: &[String],
    files: &mut F,
    out: &mut O,
    err: &mut E,
) -> Status
    ensures ended { IsRun (F.told files.old) (map string_bytes words.now) (F.loads files.old) (F.loads files.new)
        (put_of (O.written out.old) (O.written out.new) (O.faults out.old) (O.faults out.new))
        (put_of (E.written err.old) (E.written err.new) (E.faults err.old) (E.faults err.new)) result }
    ensures says_why { SaysWhy E.wants_memory (put_of (E.written err.old) (E.written err.new) (E.faults err.old) (E.faults err.new)) result }
{
    match run(alloc, words, files, out) {
        Ok(status) => status,
        Err(stop) => tell(alloc, stop, err),
    }
}
