//! Why a run ends, said on standard error.
ghost use Rattle.std.specs.Prelude.{◌≡◌, ◌≤◌};
ghost use Rattle.tp_io.specs.Sinks.{AddsPrefix};
ghost use Rattle.premise_lines.specs.Stops as spec;
ghost use Rattle.premise_lines.specs.Tells.{Tells, Says, SaysWhole, SaysWhy, put_of};

use crate::stops::{Status, Stop};
use std::alloc::Global;
use tp_io::{Sink, SinkFault, put_all};

/// Says on standard error why a run ends, and answers its status.
pub(crate) fn tell<E: Sink>(alloc: Global, stop: Stop, err: &mut E) -> Status
    ensures tells { Tells stop (put_of (E.written err.old) (E.written err.new) (E.faults err.old) (E.faults err.new)) result }
    ensures why { SaysWhy E.wants_memory (put_of (E.written err.old) (E.written err.new) (E.faults err.old) (E.faults err.new)) result }
{
    match stop {
        Stop::WriteFault => say_last(stop, err),
        Stop::NoMemory => say_last(stop, err),
        _ => say(alloc, stop, err),
    }
}

// Says the line of a stop, or why it can't.
fn say<E: Sink>(alloc: Global, stop: Stop, err: &mut E) -> Status
    ensures says { Says stop (put_of (E.written err.old) (E.written err.new) (E.faults err.old) (E.faults err.new)) result }
    ensures why { SaysWhy E.wants_memory (put_of (E.written err.old) (E.written err.new) (E.faults err.old) (E.faults err.new)) result }
{
    let Ok(line) = stop.line(alloc) else {
        return say_last(Stop::NoMemory, err);
    };
    match put_all(err, &line) {
        Ok(()) => stop.status(),
        Err(SinkFault::Failed) => say_last(Stop::WriteFault, err),
        Err(SinkFault::Memory) => say_last(Stop::NoMemory, err),
    }
}

// Says what it can of a line without a place: a fault changes nothing any more.
fn say_last<E: Sink>(stop: Stop, err: &mut E) -> Status
    requires { spec.IsFixed stop }
    ensures status { result ≡ spec.status_of_stop stop }
    ensures line { AddsPrefix (E.written err.old) (E.written err.new) (spec.stop_line stop) }
    ensures whole { SaysWhole E.wants_memory stop (put_of (E.written err.old) (E.written err.new) (E.faults err.old) (E.faults err.new)) }
    ensures never_falls { E.faults err.old ≤ E.faults err.new }
{
    let _ = put_all(err, stop.fixed_line());
    stop.status()
}
