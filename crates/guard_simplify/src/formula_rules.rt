//! The rules that give a formula's atom: local, from the parent or from a child.
ghost use Rattle.std.specs.Prelude.{◌≡◌, ◌+◌, ◌≤◌, [], ◌∷◌, ◌++◌, length, map, IfOk, OnOk, All};
ghost use Rattle.tp_base.specs.declared.atoms.TheConstants.{MOST_ATOMS};
ghost use Rattle.simple_core.specs.Labels.{set_of};
ghost use Rattle.simple_core.specs.Systems.{IsAtom};
ghost use Rattle.guard_simplify.specs.AtomNumbers.{HasAtomParts, HaveAtomParts};
ghost use Rattle.guard_simplify.specs.Numbered.{stored};
ghost use Rattle.guard_simplify.specs.KeyRules.{by_number, onward, needing_each, key_locals, from_each, key_ups, key_downs};

use crate::keys::{Key, Shape};
use simple_core::{Link, Local};
use std::alloc::Global;
use tp_base::{Atom, ClassSet, NoMemory};

/// The atom of a number.
pub(crate) fn atom_of(number: usize) -> Atom
    requires { IsAtom number }
    ensures { result ≡ number }
{
    Atom(number as u32)
}

// The set of the atoms of these numbers.
fn set_of_parts(alloc: Global, parts: &[usize]) -> Result<ClassSet, NoMemory>
    requires { All IsAtom parts.now }
    ensures { IfOk result (λ s. s ≡ set_of parts.now) }
{
    let mut atoms = Vec::with_capacity(alloc, parts.len())?;
    'parts: for p in parts {
        atoms.push(atom_of(*p))?;
    }
    ClassSet::of(atoms)
}

/// The set of one atom.
pub(crate) fn set_of_one(alloc: Global, atom: Atom) -> Result<ClassSet, NoMemory>
    ensures { IfOk result (λ s. s ≡ set_of (atom ∷ [])) }
{
    ClassSet::of(vec![in alloc; atom]?)
}

// A rule that no statement stands behind, which gives the atom.
fn give(locals: &mut Vec<Local>, needs: ClassSet, gives: Atom) -> Result<(), NoMemory>
    ensures { OnOk result (locals.new.items ≡ locals.old.items ++ record { needs = needs; gives = gives; stmt = None } ∷ []) }
{
    let stmt = None;
    locals.push(Local { needs, gives, stmt })?;
    Ok(())
}

// Each part gives the atom.
fn give_each(
    alloc: Global,
    locals: &mut Vec<Local>,
    parts: &[usize],
    gives: Atom,
) -> Result<(), NoMemory>
    requires { All IsAtom parts.now }
    ensures { OnOk result (locals.new.items ≡ locals.old.items ++ needing_each gives parts.now) }
{
    'parts: for p in parts {
        give(locals, set_of_one(alloc, atom_of(*p))?, gives)?;
    }
    Ok(())
}

// The rules at one node that give the atom of a formula.
fn give_locally(
    alloc: Global,
    locals: &mut Vec<Local>,
    gives: Atom,
    key: &Key,
) -> Result<(), NoMemory>
    requires { HasAtomParts key.now }
    ensures { OnOk result (locals.new.items ≡ locals.old.items ++ key_locals gives (stored key.now)) }
{
    match key.shape {
        Shape::Always => give(locals, ClassSet::new(alloc), gives),
        Shape::All => give(locals, set_of_parts(alloc, key.parts.as_slice())?, gives),
        Shape::Any => give_each(alloc, locals, key.parts.as_slice(), gives),
        Shape::Somewhere => give_each(alloc, locals, key.parts.as_slice(), gives),
        Shape::Parent | Shape::Ancestor | Shape::Child | Shape::Descendant => Ok(()),
    }
}

// A node gives the atom to the one next to it, for each part.
fn link_each(links: &mut Vec<Link>, parts: &[usize], to: Atom) -> Result<(), NoMemory>
    requires { All IsAtom parts.now }
    ensures { OnOk result (links.new.items ≡ links.old.items ++ from_each to parts.now) }
{
    'parts: for p in parts {
        let from = atom_of(*p);
        links.push(Link { from, to })?;
    }
    Ok(())
}

// A node gives the atom on to the one next to it.
fn hand_on(links: &mut Vec<Link>, atom: Atom) -> Result<(), NoMemory>
    ensures { OnOk result (links.new.items ≡ links.old.items ++ onward atom ∷ []) }
{
    links.push(Link {
        from: atom,
        to: atom,
    })?;
    Ok(())
}

// What a node's parent gives it of a formula.
fn give_up(links: &mut Vec<Link>, to: Atom, key: &Key) -> Result<(), NoMemory>
    requires { HasAtomParts key.now }
    ensures { OnOk result (links.new.items ≡ links.old.items ++ key_ups to (stored key.now)) }
{
    match key.shape {
        Shape::Parent => link_each(links, key.parts.as_slice(), to),
        Shape::Ancestor => {
            link_each(links, key.parts.as_slice(), to)?;
            hand_on(links, to)
        }
        Shape::Somewhere => hand_on(links, to),
        Shape::Always | Shape::All | Shape::Any | Shape::Child | Shape::Descendant => Ok(()),
    }
}

// What a node's child gives it of a formula.
fn give_down(links: &mut Vec<Link>, gives: Atom, key: &Key) -> Result<(), NoMemory>
    requires { HasAtomParts key.now }
    ensures { OnOk result (links.new.items ≡ links.old.items ++ key_downs gives (stored key.now)) }
{
    match key.shape {
        Shape::Child => link_each(links, key.parts.as_slice(), gives),
        Shape::Descendant => {
            link_each(links, key.parts.as_slice(), gives)?;
            hand_on(links, gives)
        }
        Shape::Somewhere => hand_on(links, gives),
        Shape::Always | Shape::All | Shape::Any | Shape::Parent | Shape::Ancestor => Ok(()),
    }
}

/// The local rules that give the atoms of the formulas, which begin with `first`. Linear in the keys, but for the sets.
pub fn locals_of(alloc: Global, first: u32, keys: &[Key]) -> Result<Vec<Local>, NoMemory>
    requires few { first + length keys.now ≤ MOST_ATOMS }
    requires parts { HaveAtomParts keys.now }
    ensures { IfOk result (λ v. v.items ≡ by_number key_locals first (map stored keys.now)) }
{
    let mut locals = Vec::new(alloc);
    let mut number = first;
    let mut rest = keys;
    'keys: while let Some((key, later)) = rest.split_first() {
        give_locally(alloc, &mut locals, Atom(number), key)?;
        number += 1;
        rest = later;
    }
    Ok(locals)
}

/// The rules that give the atoms of the formulas to the children. Linear in the keys.
pub fn ups_of(alloc: Global, first: u32, keys: &[Key]) -> Result<Vec<Link>, NoMemory>
    requires few { first + length keys.now ≤ MOST_ATOMS }
    requires parts { HaveAtomParts keys.now }
    ensures { IfOk result (λ v. v.items ≡ by_number key_ups first (map stored keys.now)) }
{
    let mut links = Vec::new(alloc);
    let mut number = first;
    let mut rest = keys;
    'keys: while let Some((key, later)) = rest.split_first() {
        give_up(&mut links, Atom(number), key)?;
        number += 1;
        rest = later;
    }
    Ok(links)
}

/// The rules that give the atoms of the formulas to the parents. Linear in the keys.
pub fn downs_of(alloc: Global, first: u32, keys: &[Key]) -> Result<Vec<Link>, NoMemory>
    requires few { first + length keys.now ≤ MOST_ATOMS }
    requires parts { HaveAtomParts keys.now }
    ensures { IfOk result (λ v. v.items ≡ by_number key_downs first (map stored keys.now)) }
{
    let mut links = Vec::new(alloc);
    let mut number = first;
    let mut rest = keys;
    'keys: while let Some((key, later)) = rest.split_first() {
        give_down(&mut links, Atom(number), key)?;
        number += 1;
        rest = later;
    }
    Ok(links)
}
