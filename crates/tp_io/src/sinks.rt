//! Sinks that take bytes, some at a time.
ghost use Rattle.std.specs.Prelude.{◌≡◌, ◌<◌, ◌≤◌, [], take, length, IsOk, IfOk, OnOk, OnErr};
ghost use Rattle.tp_io.specs.Sinks.{Adds, AddsPrefix, Rose};

use std::alloc::{AllocError, AllocFailed};
use thiserror::Error;

/// Why a sink didn't take bytes.
#[derive(Clone, Copy, Debug, PartialEq, Eq, Error)]
pub enum SinkFault {
    #[error("write fault")]
    Failed,
    #[error("no memory")]
    Memory,
}

impl From<AllocError> for SinkFault {
    ghost use Rattle.tp_io.specs.declared.sinks.SinkFault.TheVariants.{Memory};

    ghost from_gives = { λ _ e. e ≡ Memory };

    fn from(_error: AllocError) -> SinkFault {
        SinkFault::Memory
    }
}

impl<T: Drop> From<AllocFailed<T>> for SinkFault {
    ghost use Rattle.tp_io.specs.declared.sinks.SinkFault.TheVariants.{Memory};

    ghost from_gives = { λ _ e. e ≡ Memory };

    fn from(_error: AllocFailed<T>) -> SinkFault {
        SinkFault::Memory
    }
}

/// What takes bytes. Each implementation counts its faults, up to the greatest `u64`, and says whether it tells
/// what was written, and whether a put may want memory.
pub trait Sink {
    ghost use Rattle.std.specs.Prelude.{ℕ, List, Option};

    // The bytes written so far, where they are told.
    ghost written: { Self → Option (List ℕ) };

    // How many faults there were so far.
    ghost faults: { Self → ℕ };

    // What holds where a put may want memory.
    ghost wants_memory: { Type 0 };

    /// Takes the first bytes of a piece, and answers how many. `put_all` puts the rest.
    fn put(&mut self, piece: &[u8]) -> Result<usize, SinkFault>
        requires { 0 < length piece.now }
        ensures within { IfOk result (λ count. count ≤ length piece.now) }
        ensures took { IfOk result (λ count. Adds (written self.old) (written self.new) (take count piece.now)) }
        ensures err { OnErr result (written self.new ≡ written self.old) }
        ensures failed { result ≡ Err SinkFault.Failed → Rose (faults self.old) (faults self.new) }
        ensures took_nothing { result ≡ Ok 0 → Rose (faults self.old) (faults self.new) }
        ensures memory { result ≡ Err SinkFault.Memory → wants_memory }
        ensures never_falls { faults self.old ≤ faults self.new };
}

/// Puts until the whole piece is taken. An empty piece makes no put. It needs no memory but what `put` needs.
pub fn put_all<O: Sink>(out: &mut O, piece: &[u8]) -> Result<(), SinkFault>
    ensures ok { OnOk result (Adds (O.written out.old) (O.written out.new) piece.now) }
    ensures err { OnErr result (AddsPrefix (O.written out.old) (O.written out.new) piece.now) }
    ensures failed { result ≡ Err SinkFault.Failed → Rose (O.faults out.old) (O.faults out.new) }
    ensures memory { result ≡ Err SinkFault.Memory → O.wants_memory }
    ensures never_falls { O.faults out.old ≤ O.faults out.new }
    ensures empty_succeeds { piece.now ≡ [] → IsOk result }
    ensures empty_makes_no_put { piece.now ≡ [] → out.new ≡ out.old }
{
    let mut rest = piece;
    'puts: while !rest.is_empty() {
        let count = out.put(rest)?;
        if count == 0 {
            return Err(SinkFault::Failed);
        }
        rest = rest.split_at(count).1;
    }
    Ok(())
}
