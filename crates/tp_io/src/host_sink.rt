//! The standard streams of the system.
ghost use Rattle.std.specs.Prelude.{◌≡◌, ◌<◌, ◌≤◌, length, is_ok, if◌then◌else◌, IfOk, OnErr, IsOkUnless};
ghost use Rattle.std.specs.Io.{WritesAtMost};
ghost use Rattle.std.specs.Io.KnownBytes.{WriteAppends};
ghost use Rattle.tp_io.specs.Counts.{next_count};

use crate::sinks::{Sink, SinkFault};
use std::io;
use std::io::{ErrorKind, Write};
use std::marker::Model;
use std::rt::{Stderr, Stdout};

// How often a write is tried that a signal cuts off.
const TRIES: u32 = 64;

/// A standard stream, whose bytes aren't told. A contract sees the stream and the count of its faults.
#[derive(Drop)]
pub struct HostSink<W> {
    stream: W,
    faults: u64,
}

impl<W> Model for HostSink<W> {
    ghost use Rattle.tp_io.specs.Streams.{CountedStream};

    ghost Value = { CountedStream W };

    ghost view = { λ s. record { stream = s.stream; faults = s.faults } };
}

impl HostSink<Stdout> {
    /// Standard output.
    pub fn output(stream: Stdout) -> Self
        ensures { result ≡ record { stream = stream; faults = 0 } }
    {
        HostSink { stream, faults: 0 }
    }
}

impl HostSink<Stderr> {
    /// Standard error.
    pub fn error(stream: Stderr) -> Self
        ensures { result ≡ record { stream = stream; faults = 0 } }
    {
        HostSink { stream, faults: 0 }
    }
}

impl<W: Write> Sink for HostSink<W> {
    ghost use Rattle.std.specs.Prelude.{None};

    ghost written = { λ _. None };

    ghost faults = { λ s. s.faults };

    ghost wants_memory = { ⊥ };

    fn put(&mut self, piece: &[u8]) -> Result<usize, SinkFault>
        ensures some { IfOk result (λ count. (0 < count) × (count ≤ length piece.now)) }
        ensures only_failed { IsOkUnless result SinkFault.Failed }
        ensures counted { self.new.faults ≡ (if is_ok result then self.old.faults else next_count self.old.faults) }
        ensures never_falls { self.old.faults ≤ self.new.faults }
        // Where a stream tells what it holds.
        ensures stream { WriteAppends (W.contents self.old.stream) (W.contents self.new.stream) result piece.now }
    {
        match write_some(&mut self.stream, piece) {
            Ok(count) if count > 0 => Ok(count),
            _ => {
                self.faults = self.faults.saturating_add(1);
                Err(SinkFault::Failed)
            }
        }
    }
}

fn write_some<W: Write>(stream: &mut W, piece: &[u8]) -> io::Result<usize>
    ensures within { WritesAtMost result piece.now }
    ensures stream { WriteAppends (W.contents stream.old) (W.contents stream.new) result piece.now }
{
    for _ in 0..TRIES {
        match stream.write(piece) {
            Err(e) if e.kind() == ErrorKind::Interrupted => {}
            answer => return answer,
        }
    }
    Err(io::Error::from(ErrorKind::Interrupted))
}
