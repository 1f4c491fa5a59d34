//! A sink in memory that fails as it is told to.
ghost use Rattle.std.specs.Prelude.{◌≡◌, ◌<◌, ◌≤◌, ◌↔◌, [], length, min, Contains, IfOk, IsErrOf};
ghost use Rattle.tp_io.specs.Counts.{next_count};
ghost use Rattle.tp_io.specs.MemorySinks.{bytes_after, faults_after};

use crate::sinks::{Sink, SinkFault};
use std::alloc::Global;
use std::marker::Model;

/// A sink that keeps what it takes, and fails at chosen puts.
#[derive(Debug, Drop)]
pub struct MemSink {
    bytes: Vec<u8>,
    fail: Vec<u64>,
    most: usize,
    puts: u64,
    faults: u64,
}

impl Model for MemSink {
    ghost use Rattle.tp_io.specs.MemorySinks.{MemorySink};

    ghost Value = { MemorySink };

    ghost view = { λ s. record {
      bytes = s.bytes.items;
      fail = s.fail.items;
      most = s.most;
      puts = s.puts;
      faults = s.faults;
    } };
}

impl MemSink {
    /// An empty sink. The puts whose numbers, from 1, are in `fail` fail, and each other one takes `most` bytes
    /// at most. One that finds no memory counts as a put.
    pub fn new(alloc: Global, fail: Vec<u64>, most: usize) -> Self
        ensures { result ≡ record { bytes = []; fail = fail.items; most = most; puts = 0; faults = 0 } }
    {
        MemSink {
            bytes: Vec::new(alloc),
            fail,
            most,
            puts: 0,
            faults: 0,
        }
    }

    /// All bytes that were taken, in order.
    pub fn bytes(&self) -> &[u8]
        ensures { result.now ≡ self.now.bytes }
    {
        self.bytes.as_slice()
    }
}

impl Sink for MemSink {
    ghost use Rattle.std.specs.Prelude.{Some};

    ghost written = { λ s. Some s.bytes };

    ghost faults = { λ s. s.faults };

    ghost wants_memory = { Unit {0} };

    fn put(&mut self, piece: &[u8]) -> Result<usize, SinkFault>
        requires { 0 < length piece.now }
        ensures failed { IsErrOf result SinkFault.Failed ↔ Contains self.old.fail (next_count self.old.puts) }
        ensures count { IfOk result (λ count. count ≡ min self.old.most (length piece.now)) }
        ensures after { self.new ≡ record self.old {
          bytes = bytes_after self.old.bytes piece.now result;
          puts = next_count self.old.puts;
          faults = faults_after self.old.faults result;
        } }
        ensures never_falls { self.old.faults ≤ self.new.faults }
    {
        self.puts = self.puts.saturating_add(1);
        if self.fail.contains(&self.puts) {
            self.faults = self.faults.saturating_add(1);
            return Err(SinkFault::Failed);
        }
        let count = self.most.min(piece.len());
        if count == 0 {
            self.faults = self.faults.saturating_add(1);
            return Ok(0);
        }
        self.bytes.extend_from_slice(piece.split_at(count).0)?;
        Ok(count)
    }
}
