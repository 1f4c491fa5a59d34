//! A sink that wants memory as it is told to.
ghost use Rattle.std.specs.Prelude.{◌≡◌, ◌<◌, ◌≤◌, take, length, IfOk, OnErr};
ghost use Rattle.tp_io.specs.Sinks.{Adds, Rose};

use tp_io::{Sink, SinkFault};

/// Another sink, for one of whose puts there is no memory.
#[derive(Debug, Drop)]
pub(crate) struct Wanting<S> {
    inner: S,
    want: Option<u64>,
    puts: u64,
}

impl<S> Wanting<S> {
    /// The put whose number, from 1, is in `want` wants memory, and the others are those of the other sink.
    pub(crate) fn new(inner: S, want: Option<u64>) -> Self {
        Wanting {
            inner,
            want,
            puts: 0,
        }
    }

    /// The other sink.
    pub(crate) fn inner(&self) -> &S {
        &self.inner
    }
}

impl<S: Sink> Sink for Wanting<S> {
    ghost written = { λ s. S.written s.inner };

    ghost faults = { λ s. S.faults s.inner };

    ghost wants_memory = { Unit {0} };

    fn put(&mut self, piece: &[u8]) -> Result<usize, SinkFault>
        requires { 0 < length piece.now }
        ensures within { IfOk result (λ count. count ≤ length piece.now) }
        ensures took { IfOk result (λ count. Adds (S.written self.old.inner) (S.written self.new.inner) (take count piece.now)) }
        ensures err { OnErr result (S.written self.new.inner ≡ S.written self.old.inner) }
        ensures failed { result ≡ Err SinkFault.Failed → Rose (S.faults self.old.inner) (S.faults self.new.inner) }
        ensures took_nothing { result ≡ Ok 0 → Rose (S.faults self.old.inner) (S.faults self.new.inner) }
        ensures never_falls { S.faults self.old.inner ≤ S.faults self.new.inner }
    {
        self.puts = self.puts.saturating_add(1);
        if self.want == Some(self.puts) {
            return Err(SinkFault::Memory);
        }
        self.inner.put(piece)
    }
}
