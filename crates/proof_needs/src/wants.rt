//! The wanted atoms: each atom at each spot once.
ghost use Rattle.std.specs.Prelude.{◌≡◌, OnOk, OnErr};
ghost use Rattle.proof_needs.specs.Sets.{IsWith, IsWithSome};
ghost use Rattle.proof_needs.specs.Wants.{IsOfEach, IsAtEach};

use crate::spots::{Spot, Want};
use indexmap::IndexSet;
use tp_base::{Atom, ClassSet, NoMemory};

/// The atom at the spot. Constant, on average.
pub fn want(wants: &mut IndexSet<Want>, spot: Spot, atom: Atom) -> Result<(), NoMemory>
    ensures ok { OnOk result (IsWith wants.old.keys (λ w. w ≡ record { spot = spot; atom = atom }) wants.new.keys) }
    ensures err { OnErr result (wants.new.keys ≡ wants.old.keys) }
{
    wants.insert(Want { spot, atom })?;
    Ok(())
}

/// Each of the atoms at the spot. After a refusal some of them may be wanted.
pub(crate) fn want_each(
    wants: &mut IndexSet<Want>,
    spot: Spot,
    atoms: &ClassSet,
) -> Result<(), NoMemory>
    ensures ok { OnOk result (IsWith wants.old.keys (IsOfEach spot atoms.now) wants.new.keys) }
    ensures err { OnErr result (IsWithSome wants.old.keys (IsOfEach spot atoms.now) wants.new.keys) }
{
    for i in 0..atoms.len() {
        want(wants, spot, atoms.at(i))?;
    }
    Ok(())
}

/// The atom at each of the spots. After a refusal it may be wanted at some of them.
pub(crate) fn want_at_each(
    wants: &mut IndexSet<Want>,
    spots: &[Spot],
    atom: Atom,
) -> Result<(), NoMemory>
    ensures ok { OnOk result (IsWith wants.old.keys (IsAtEach spots.now atom) wants.new.keys) }
    ensures err { OnErr result (IsWithSome wants.old.keys (IsAtEach spots.now atom) wants.new.keys) }
{
    for spot in spots {
        want(wants, *spot, atom)?;
    }
    Ok(())
}
