//! Finds the places of a page and a sheet at which a browser does more than the model: `premises { --except NAME } PAGE SHEET`.
#![tactic(auto)]

ghost use Rattle.std.specs.Prelude.{◌≡◌, ◌≢◌, [], drop, map, string_bytes, Err, IfOk, IfErr};
ghost use Rattle.std.specs.Vec.Iter.{into_iter_items};
ghost use Rattle.std.specs.Process.{exit_status};
ghost use Rattle.std.specs.IoError.{error_kind};
ghost use Rattle.premise_lines.specs.Runs.{IsRun};
ghost use Rattle.premise_lines.specs.Stops.{code_of};
ghost use Rattle.premise_lines.specs.Tells.{SaysWhy, put_of};

use premise_lines::{Status, premises_command};
use std::alloc::{AllocError, Global};
use std::io::ErrorKind;
use std::process::ExitCode;
use std::rt::{Env, Stderr};
use std::{env, io};
use tp_io::{Files, HostFiles, HostSink, Sink, put_all};

fn main(rt: HostRuntime) -> ExitCode {
    let alloc = rt.alloc();
    let mut out = HostSink::output(rt.stdout());
    let mut err = HostSink::error(rt.stderr());
    let status = match words(alloc, env::args(&rt)) {
        Ok(words) => run(
            alloc,
            &words,
            &mut HostFiles::new(alloc, rt),
            &mut out,
            &mut err,
        ),
        Err(_) => no_words(&mut err),
    };
    exit_code(status)
}

// The lines go to `out`, and messages go to `err`.
fn run<F: Files, O: Sink, E: Sink>(
    alloc: Global,
    words: &[String],
    files: &mut F,
    out: &mut O,
    err: &mut E,
) -> Status
    ensures ended { IsRun (F.told files.old) (map string_bytes words.now) (F.loads files.old) (F.loads files.new)
        (put_of (O.written out.old) (O.written out.new) (O.faults out.old) (O.faults out.new))
        (put_of (E.written err.old) (E.written err.new) (E.faults err.old) (E.faults err.new)) result }
    ensures says_why { SaysWhy E.wants_memory (put_of (E.written err.old) (E.written err.new) (E.faults err.old) (E.faults err.new)) result }
{
    premises_command(alloc, words, files, out, err)
}

fn no_words(err: &mut HostSink<Stderr>) -> Status
    ensures { result ≡ Status.NoMemory }
{
    let _ = put_all(err, b"premises: no memory\n");
    Status::NoMemory
}

// The exit code of the process.
fn exit_code(status: Status) -> ExitCode
    ensures { exit_status result ≡ code_of status }
{
    ExitCode::from(status.code())
}

// The arguments after the program's name. An argument that isn't UTF-8 names no file, and then there are no words.
fn words(alloc: Global, given: io::Result<env::Args>) -> io::Result<Vec<String>>
    ensures words { IfOk given (λ args. IfOk result (λ words. words.items ≡ drop 1 (into_iter_items args))) }
    ensures only_memory { IfOk given (λ _. IfErr result (λ e. error_kind e ≡ ErrorKind.OutOfMemory)) }
    ensures not_utf8 { IfErr given (λ e. error_kind e ≡ ErrorKind.InvalidData → IfOk result (λ words. words.items ≡ [])) }
    ensures err { IfErr given (λ e. error_kind e ≢ ErrorKind.InvalidData → result ≡ Err e) }
{
    match given {
        Ok(args) => Ok(behind_name(alloc, args)?),
        Err(e) if e.kind() == ErrorKind::InvalidData => Ok(Vec::new(alloc)),
        Err(e) => Err(e),
    }
}

// All arguments but the first, which is the program's name.
fn behind_name(alloc: Global, mut args: env::Args) -> Result<Vec<String>, AllocError>
    ensures { IfOk result (λ words. words.items ≡ drop 1 (into_iter_items args)) }
{
    match args.next() {
        Some(_) => all_of(alloc, args),
        None => Ok(Vec::new(alloc)),
    }
}

fn all_of(alloc: Global, mut left: env::Args) -> Result<Vec<String>, AllocError>
    ensures { IfOk result (λ all. all.items ≡ into_iter_items left) }
{
    let mut all = Vec::new(alloc);
    'arguments: while let Some(argument) = left.next() {
        all.push(argument)?;
    }
    Ok(all)
}

#[cfg(test)]
mod tests;
