//! A sink in memory that never fails.
ghost use Rattle.std.specs.Prelude.{◌≡◌, [], ◌++◌, length, IfOk, OnOk, OnErr, IsOkUnless};

use crate::sinks::{Sink, SinkFault};
use std::alloc::Global;
use std::marker::Model;

/// A sink that keeps all, and has no fault. A contract sees the bytes that it keeps.
#[derive(Debug, Drop)]
pub struct SureSink {
    bytes: Vec<u8>,
}

impl Model for SureSink {
    ghost use Rattle.std.specs.Prelude.{ℕ, List};

    ghost Value = { List ℕ };

    ghost view = { λ s. s.bytes.items };
}

impl SureSink {
    /// An empty sink. Constant.
    pub fn new(alloc: Global) -> Self
        ensures { result ≡ [] }
    {
        SureSink {
            bytes: Vec::new(alloc),
        }
    }

    /// All bytes that were put, in order.
    pub fn bytes(&self) -> &[u8]
        ensures { result.now ≡ self.now }
    {
        self.bytes.as_slice()
    }
}

impl Sink for SureSink {
    ghost use Rattle.std.specs.Prelude.{Some};

    ghost written = { λ s. Some s };

    ghost faults = { λ _. 0 };

    ghost wants_memory = { Unit {0} };

    fn put(&mut self, piece: &[u8]) -> Result<usize, SinkFault>
        ensures all { IfOk result (λ count. count ≡ length piece.now) }
        ensures kept { OnOk result (self.new ≡ self.old ++ piece.now) }
        ensures never_fails { IsOkUnless result SinkFault.Memory }
        ensures err { OnErr result (self.new ≡ self.old) }
    {
        self.bytes.extend_from_slice(piece)?;
        Ok(piece.len())
    }
}
