//! The files of the system.
ghost use Rattle.std.specs.Prelude.{◌≡◌, ◌<◌, ◌≤◌, ◌++◌, [], length, take, IfOk, IfSome, OnOk, OnErr, vec_len};
ghost use Rattle.std.specs.Io.{ReadsAtMost};
ghost use Rattle.std.specs.Io.KnownBytes.{Consumes, IsAtEnd, Keeps};

use crate::files::{Files, LoadFault};
use crate::load_list::LoadList;
use std::alloc::Global;
use std::fs::File;
use std::io::{ErrorKind, Read};
use std::marker::Model;
use std::{io, rt};
use tp_base::MOST_BYTES;

// How many bytes one read asks for.
const PIECE: usize = 65_536;

// How often a read is tried that a signal cuts off.
const TRIES: u32 = 64;

/// The files of the system, whose bytes aren't told. A contract sees the loads so far.
#[derive(Drop)]
pub struct HostFiles<R> {
    system: R,
    loads: LoadList,
}

impl<R> Model for HostFiles<R> {
    ghost use Rattle.std.specs.Prelude.{List};
    ghost use Rattle.tp_io.specs.Files.{Load};

    ghost Value = { List Load };

    ghost view = { λ f. f.loads };
}

impl<R: rt::Files> HostFiles<R> {
    /// The files that this runtime opens.
    pub fn new(alloc: Global, system: R) -> Self
        ensures { result ≡ [] }
    {
        HostFiles {
            system,
            loads: LoadList::new(alloc),
        }
    }
}

impl<R: rt::Files> Files for HostFiles<R> {
    ghost use Rattle.std.specs.Prelude.{None};

    ghost told = { λ _ _. None };

    ghost loads = { λ f. f };

    fn load(&mut self, name: &str, into: &mut Vec<u8>) -> Result<(), LoadFault> {
        self.loads.begin(name)?;
        let answer = read_file(&self.system, name, into);
        self.loads.end(answer);
        answer
    }
}

fn read_file<R: rt::Files>(system: &R, name: &str, into: &mut Vec<u8>) -> Result<(), LoadFault>
    ensures in_limit { OnOk result (vec_len into.new ≤ MOST_BYTES) }
    ensures too_large { result ≡ Err LoadFault.TooLarge → MOST_BYTES < vec_len into.new }
{
    let mut piece = vec![in *into.allocator(); 0u8; PIECE]?;
    match File::open(system, name) {
        Ok(mut file) => read_all(&mut file, &mut piece, into),
        Err(_) => Err(LoadFault::Failed),
    }
}

// Each turn takes a byte at least or is the last, so that a file without an end is too large.
fn read_all<F: Read>(file: &mut F, piece: &mut [u8], into: &mut Vec<u8>) -> Result<(), LoadFault>
    requires { 0 < length piece.old }
    ensures whole { OnOk result (IfSome (F.remaining file.old) (λ bytes. into.new.items ≡ into.old.items ++ bytes)) }
    ensures in_limit { OnOk result (vec_len into.new ≤ MOST_BYTES) }
    ensures too_large { result ≡ Err LoadFault.TooLarge → MOST_BYTES < vec_len into.new }
{
    'pieces: while into.len() <= MOST_BYTES as usize {
        match read_some(file, piece) {
            Ok(0) => return Ok(()),
            Ok(count) => into.extend_from_slice(&piece[..count])?,
            Err(_) => return Err(LoadFault::Failed),
        }
    }
    Err(LoadFault::TooLarge)
}

fn read_some<F: Read>(file: &mut F, piece: &mut [u8]) -> io::Result<usize>
    ensures within { ReadsAtMost result piece.new }
    ensures ok { IfOk result (λ count. Consumes (F.remaining file.old) (F.remaining file.new) (take count piece.new)) }
    ensures end { IfOk result (λ count. count ≡ 0 → 0 < length piece.old → IsAtEnd (F.remaining file.new)) }
    ensures err { OnErr result (Keeps (F.remaining file.old) (F.remaining file.new)) }
{
    for _ in 0..TRIES {
        match file.read(piece) {
            Err(e) if e.kind() == ErrorKind::Interrupted => {}
            answer => return answer,
        }
    }
    Err(io::Error::from(ErrorKind::Interrupted))
}
