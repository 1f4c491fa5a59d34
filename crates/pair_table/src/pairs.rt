//! The hash of a pair of a kind and a label, and whether two labels are equal.
ghost use Rattle.std.specs.Prelude.{◌≡◌, ◌↔◌, IsTrue};
ghost use Rattle.pair_table.specs.Hashes.{hash_of};

use tp_base::ClassSet;

/// A hash of the pair. Each atom is taken in as FNV-1 takes a byte: the number so far times 1,099,511,628,211, the prime of the
/// 64-bit FNV hash, and then XOR. Linear in the atoms.
pub fn hash_of(kind: u32, label: &ClassSet) -> u64
    ensures { result ≡ hash_of kind label.now }
{
    let mut hash = kind as u64;
    for i in 0..label.len() {
        hash = hash.wrapping_mul(1_099_511_628_211) ^ label.at(i).0 as u64;
    }
    hash
}

/// Whether two sets have the same atoms. One walk along both, and none where their lengths differ.
pub fn same_atoms(first: &ClassSet, second: &ClassSet) -> bool
    ensures { IsTrue result ↔ first.now ≡ second.now }
{
    if first.len() != second.len() {
        return false;
    }
    let mut i = 0;
    'atoms: while i < first.len() {
        if first.at(i) != second.at(i) {
            return false;
        }
        i += 1;
    }
    true
}
