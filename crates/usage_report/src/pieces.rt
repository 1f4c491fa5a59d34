//! Pieces of a report: numbers, places and paths as bytes.
ghost use Rattle.std.specs.Prelude.{◌≡◌, ◌<◌, ◌++◌, [], ◌∷◌, codes, OnOk};
ghost use Rattle.std.specs.List.{flat_map};
ghost use Rattle.std.specs.Fmt.{decimal};
ghost use Rattle.usage_report.specs.Report as spec;

use itoa::Buffer;
use std::alloc::Global;
use tp_base::{NoMemory, Path, Place};

/// What a report begins with: the command, and the version of the report's text.
pub const VERSION: &[u8] = b"treeped 2";

/// Bytes of a report, one line after another. What is put stands behind what is there; after a refusal some of it may.
#[derive(Drop)]
pub struct Piece {
    pub bytes: Vec<u8>,
}

impl Piece {
    /// An empty piece.
    pub fn new(alloc: Global) -> Self
        ensures { result.bytes.items ≡ [] }
    {
        Piece {
            bytes: Vec::new(alloc),
        }
    }

    /// Appends these bytes. Linear in them.
    pub fn put(&mut self, bytes: &[u8]) -> Result<(), NoMemory>
        ensures { OnOk result (self.new.bytes.items ≡ self.old.bytes.items ++ bytes.now) }
    {
        self.bytes.extend_from_slice(bytes)?;
        Ok(())
    }

    /// One byte more. Constant on average.
    pub(crate) fn byte(&mut self, byte: u8) -> Result<(), NoMemory>
        ensures { OnOk result (self.new.bytes.items ≡ self.old.bytes.items ++ byte ∷ []) }
    {
        self.bytes.push(byte)?;
        Ok(())
    }

    /// A number, by its decimal digits. Linear in them.
    pub fn number(&mut self, number: u64) -> Result<(), NoMemory>
        ensures { OnOk result (self.new.bytes.items ≡ self.old.bytes.items ++ decimal number) }
    {
        let mut digits = Buffer::new();
        self.put(digits.format(number).as_bytes())
    }

    /// `line:column`.
    #[tactic(auto, unfolding(crate::specs::Lines::place_text), using(std::proofs::Common::append_assoc))]
    pub fn place(&mut self, place: Place) -> Result<(), NoMemory>
        ensures { OnOk result (self.new.bytes.items ≡ self.old.bytes.items ++ spec.place_text place) }
    {
        self.number(u64::from(place.line))?;
        self.byte(b':')?;
        self.number(u64::from(place.column))
    }

    /// `/` for the root, else `/` before each child number.
    #[tactic(auto, using(crate::proofs::PieceLemmas::root_text, crate::proofs::PieceLemmas::below_root_text))]
    pub fn path(&mut self, at: &Path) -> Result<(), NoMemory>
        ensures { OnOk result (self.new.bytes.items ≡ self.old.bytes.items ++ spec.path_text at.now) }
    {
        if at.len() == 0 {
            self.put(b"/")
        } else {
            self.child_numbers(at)
        }
    }

    #[tactic(auto, using(crate::proofs::PieceLemmas::one_number_more))]
    fn child_numbers(&mut self, at: &Path) -> Result<(), NoMemory>
        ensures { OnOk result (self.new.bytes.items ≡ self.old.bytes.items ++ flat_map (λ n. codes "/" ++ decimal n) at.now) }
    {
        'levels: for i in 0..at.len() {
            self.put(b"/")?;
            self.number(u64::from(at.at(i)))?;
        }
        Ok(())
    }
}
