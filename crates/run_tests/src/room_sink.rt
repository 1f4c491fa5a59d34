//! A sink in memory that has its room from the start.
ghost use Rattle.std.specs.Prelude.{◌≡◌, ◌<◌, ◌≤◌, [], ◌++◌, take, length, IfOk, OnOk, OnErr, IsOkUnless};
ghost use Rattle.tp_io.specs.Counts.{next_count};

use std::alloc::{AllocError, Global};
use std::marker::Model;
use tp_io::{Sink, SinkFault};

/// For how many bytes there is room.
pub const ROOM: usize = 65_536;

/// A sink that keeps what it takes, a byte a put, and fails where it is full. No put wants memory.
#[derive(Debug, Drop)]
pub struct RoomSink {
    bytes: Vec<u8>,
    faults: u64,
}

impl Model for RoomSink {
    ghost use Rattle.run_tests.specs.RoomSinks.{RoomySink, HasRoom};

    ghost Value = { RoomySink };

    ghost view = { λ s. record { bytes = s.bytes.items; faults = s.faults } };

    ghost invariant = { λ s. HasRoom s.bytes s.faults };
}

impl RoomSink {
    /// An empty sink, which takes its room now.
    pub fn new(alloc: Global) -> Result<Self, AllocError>
        ensures { IfOk result (λ sink. sink ≡ record { bytes = []; faults = 0 }) }
    {
        Ok(RoomSink {
            bytes: Vec::with_capacity(alloc, ROOM)?,
            faults: 0,
        })
    }

    /// All bytes that were taken, in order.
    pub fn into_bytes(self) -> Vec<u8>
        ensures bytes { result.items ≡ self.bytes }
        ensures fails_full { 0 < self.faults → length self.bytes ≡ ROOM }
    {
        self.bytes
    }
}

impl Sink for RoomSink {
    ghost use Rattle.std.specs.Prelude.{Some};

    ghost written = { λ s. Some s.bytes };

    ghost faults = { λ s. s.faults };

    ghost wants_memory = { ⊥ };

    fn put(&mut self, piece: &[u8]) -> Result<usize, SinkFault>
        requires { 0 < length piece.now }
        ensures one { IfOk result (λ count. count ≡ 1) }
        ensures kept { OnOk result (self.new ≡ record self.old { bytes = self.old.bytes ++ take 1 piece.now }) }
        ensures counted { OnErr result (self.new ≡ record self.old { faults = next_count self.old.faults }) }
        ensures full { OnErr result (length self.old.bytes ≡ ROOM) }
        ensures only_failed { IsOkUnless result SinkFault.Failed }
        ensures never_falls { self.old.faults ≤ self.new.faults }
    {
        if self.bytes.len() >= ROOM {
            self.faults = self.faults.saturating_add(1);
            return Err(SinkFault::Failed);
        }
        match self.bytes.push(piece[0]) {
            Ok(()) => Ok(1),
            Err(_) => unreachable!(),
        }
    }
}
