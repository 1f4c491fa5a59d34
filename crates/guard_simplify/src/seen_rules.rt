//! The rules that carry the atom of a goal from where its guard holds up to the root.
ghost use Rattle.std.specs.Prelude.{◌≡◌, ◌+◌, ◌≤◌, ◌++◌, length, IfOk, OnOk};
ghost use Rattle.tp_base.specs.declared.atoms.TheConstants.{MOST_ATOMS};
ghost use Rattle.guard_simplify.specs.AtomNumbers.{AreAtoms};
ghost use Rattle.guard_simplify.specs.SeenRules.{seen_rules, seen_links, seen_of};

use crate::formula_rules::{atom_of, set_of_one};
use crate::number_set::NumberSet;
use simple_core::{Link, Local};
use std::alloc::Global;
use tp_base::{Atom, NoMemory};

/// Appends the local rules that give the seen atoms, of guards whose atoms have these numbers. Seen atoms count from
/// `first`. Linear in the guards.
pub(crate) fn add_seen(
    alloc: Global,
    first: u32,
    guards: &[usize],
    locals: &mut Vec<Local>,
) -> Result<(), NoMemory>
    requires few { first + length guards.now ≤ MOST_ATOMS }
    requires atoms { AreAtoms guards.now }
    ensures { OnOk result (locals.new.items ≡ locals.old.items ++ seen_rules first guards.now) }
{
    let mut number = first;
    let mut rest = guards;
    'guards: while let Some((guard, later)) = rest.split_first() {
        locals.push(Local {
            needs: set_of_one(alloc, atom_of(*guard))?,
            gives: Atom(number),
            stmt: None,
        })?;
        number += 1;
        rest = later;
    }
    Ok(())
}

/// Appends the links that carry the seen atoms from a child to its parent. Linear in the guards.
pub(crate) fn hand_up(first: u32, guards: &[usize], links: &mut Vec<Link>) -> Result<(), NoMemory>
    requires { first + length guards.now ≤ MOST_ATOMS }
    ensures { OnOk result (links.new.items ≡ links.old.items ++ seen_links first guards.now) }
{
    let mut number = first;
    let mut rest = guards;
    'guards: while let Some((_, later)) = rest.split_first() {
        links.push(Link {
            from: Atom(number),
            to: Atom(number),
        })?;
        number += 1;
        rest = later;
    }
    Ok(())
}

/// The seen atoms of guards whose atoms have these numbers, one for each guard. Linear in the guards.
pub(crate) fn seen_atoms(
    alloc: Global,
    first: u32,
    once: &NumberSet,
    guards: &[usize],
) -> Result<Vec<Atom>, NoMemory>
    requires { first + length once.now ≤ MOST_ATOMS }
    ensures { IfOk result (λ v. v.items ≡ seen_of first once.now guards.now) }
{
    let mut seen = Vec::with_capacity(alloc, guards.len())?;
    'guards: for guard in guards {
        seen.push(Atom(first + once.place(*guard) as u32))?;
    }
    Ok(seen)
}
