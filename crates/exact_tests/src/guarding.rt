//! Guards of many `closest`, one after another, each of which has the guard before it twice.
ghost use Rattle.std.specs.Prelude.{ℕ, ◌<◌, IfOk};
ghost use Rattle.guard_simplify.specs.Law.{IsOver};

use crate::building::{B, C, Piece, page, statement};
use guard_sem::{Guard, GuardNode, Guards, holds};
use guard_simplify::{Simplified, SimplifyFault, simplify};
use rule_translate::translate;
use std::alloc::Global;
use std::test::Fail;
use test_building::path_of;
use tp_base::{Atom, AtomKind, AtomTable, NoMemory};
use tree_sem::{Tree, TreeFault};

// How many of them: written out, the guard would have more than two to this power parts.
const DEPTH: usize = 60;

// `$('.c').closest('.b')` and so on.
fn pieces(alloc: Global) -> Result<Vec<Piece>, NoMemory> {
    let mut pieces = Vec::new(alloc);
    pieces.push(Piece::Matched(C))?;
    for _ in 0..DEPTH {
        pieces.push(Piece::Closest(B))?;
    }
    Ok(pieces)
}

fn guard_of(alloc: Global) -> Result<Guard, NoMemory> {
    let s = statement(alloc, &[], &pieces(alloc)?)?;
    let rule = translate(alloc, &s.wide)?;
    Ok(rule.guard)
}

fn holds_at(alloc: Global, page: &Tree, g: &Guard, at: &[u32]) -> Result<bool, NoMemory> {
    let at = path_of(alloc, at)?;
    holds(alloc, page, &at, g)
}

// The `.b` at /0/0 has a `.c` below it, the one at /0/0/1 has none.
fn is_held(alloc: Global, page: &Tree) -> Result<bool, NoMemory> {
    let g = guard_of(alloc)?;
    Ok(holds_at(alloc, page, &g, &[0, 0])? && !holds_at(alloc, page, &g, &[0, 0, 1])?)
}

fn is_held_on_page(alloc: Global) -> Result<bool, TreeFault> {
    let page = page(alloc)?;
    Ok(is_held(alloc, &page)?)
}

#[test]
fn many_hold(rt: HostRuntime) -> Result<(), Fail> {
    assert!(rt; is_held_on_page(rt.alloc())?);
    Ok(())
}

// A node of the atom, where the guard holds at it or below.
fn around(alloc: Global, atom: u32, inner: Guard) -> Result<Guard, NoMemory>
    ensures { (n : ℕ) → atom < n → IsOver n inner → IfOk result (λ g. IsOver n g) }
{
    let there = Guard {
        node: GuardNode::AtOrBelow(Box::new(alloc, inner)?),
    };
    let here = Guard {
        node: GuardNode::Atom(Atom(atom)),
    };
    let parts = vec![in alloc; here, there]?;
    Ok(Guard {
        node: GuardNode::All(Guards::new(parts)),
    })
}

// The same of an atom, so often.
fn arounds(alloc: Global, atom: u32) -> Result<Guard, NoMemory>
    ensures { (n : ℕ) → atom < n → IfOk result (λ g. IsOver n g) }
{
    let mut made = Guard {
        node: GuardNode::Atom(Atom(atom)),
    };
    'calls: for _ in 0..DEPTH {
        made = around(alloc, atom, made)?;
    }
    Ok(made)
}

fn made_over(alloc: Global, atoms: &AtomTable) -> Result<Simplified, SimplifyFault> {
    if atoms.count() == 0 {
        return Err(SimplifyFault::Memory);
    }
    let guards = vec![in alloc; arounds(alloc, 0)?]?;
    simplify(alloc, &[], &guards, atoms)
}

fn made(alloc: Global) -> Result<Simplified, SimplifyFault> {
    let mut atoms = AtomTable::new(alloc);
    if atoms.intern(AtomKind::Class, b"b").is_err() {
        return Err(SimplifyFault::Memory);
    }
    made_over(alloc, &atoms)
}

// Each has a rule for both, two for one of two and two for what is below, and the whole is seen by two more.
fn are_few(made: &Simplified) -> bool {
    let system = &made.system;
    system.local.items().len() == DEPTH * 3 + 1
        && system.up.items().is_empty()
        && system.down.items().len() == DEPTH * 2 + 1
}

#[test]
fn many_are_few_rules(rt: HostRuntime) -> Result<(), Fail> {
    let is_right = match made(rt.alloc()) {
        Ok(found) => are_few(&found),
        Err(_) => false,
    };
    assert!(rt; is_right);
    Ok(())
}
