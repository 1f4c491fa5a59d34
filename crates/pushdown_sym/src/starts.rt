//! Where atoms begin in a sorted list.
ghost use Rattle.std.specs.Prelude.{◌≡◌, ◌<◌, ◌≤◌, ℕ, suc, true, false, length, get_or};
ghost use Rattle.std.specs.List.Sorted.{IsNonDecreasing};
ghost use Rattle.pushdown_sym.specs.Starts.{StartsAt};

use tp_base::Atom;

// Whether the atom at a place is less than a number, where there is one.
fn is_less(atoms: &[Atom], place: usize, number: u64) -> bool
    ensures less { result ≡ true → (place < length atoms.now) × (get_or atoms.now place 0 < number) }
    ensures other { result ≡ false → place < length atoms.now → number ≤ get_or atoms.now place 0 }
{
    match atoms.get(place) {
        Some(other) => (other.0 as u64) < number,
        None => false,
    }
}

// Whether the atom before a place is less than a number, where there is one.
fn is_behind(atoms: &[Atom], place: usize, number: u64) -> bool
    ensures less { result ≡ true → (k : ℕ) → place ≡ suc k → (k < length atoms.now) × (get_or atoms.now k 0 < number) }
    ensures other { result ≡ false → (k : ℕ) × (place ≡ suc k) × (k < length atoms.now → number ≤ get_or atoms.now k 0) }
{
    match place.checked_sub(1) {
        Some(last) => is_less(atoms, last, number),
        None => true,
    }
}

// Whether the atoms that are less than a number are those before a place.
fn parts(atoms: &[Atom], place: usize, number: u64) -> bool
    requires { IsNonDecreasing atoms.now }
    ensures within { result ≡ true → place ≤ length atoms.now }
    ensures start { result ≡ true → StartsAt number atoms.now place }
    ensures other { result ≡ false → place ≤ length atoms.now → ¬ StartsAt number atoms.now place }
{
    if !is_behind(atoms, place, number) {
        return false;
    }
    !is_less(atoms, place, number)
}

/// The place before which stand the atoms that are less than a number. Constant where it is the given place or the next one,
/// and else logarithmic in the number of all.
pub fn start_of(atoms: &[Atom], near: usize, number: u64) -> usize
    requires { IsNonDecreasing atoms.now }
    ensures within { result ≤ length atoms.now }
    ensures start { StartsAt number atoms.now result }
{
    if parts(atoms, near, number) {
        return near;
    }
    let next = near.saturating_add(1);
    if parts(atoms, next, number) {
        return next;
    }
    atoms.partition_point(|other| (other.0 as u64) < number)
}
