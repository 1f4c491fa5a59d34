//! The terms of a cell from children: each is a composition of a child's cell with those of its parent.
ghost use Rattle.std.specs.Prelude.{◌≡◌, ◌<◌, ◌≤◌, true, false, [], ◌∷◌, All, map, IfOk};
ghost use Rattle.std.specs.List.{flat_map};
ghost use Rattle.std.specs.List.Sorted.{IsStrictlyIncreasing};
ghost use Rattle.class_diagrams.specs.Pairs.{size};
ghost use Rattle.class_diagrams.specs.Arena.{tree_at, IsIn, IsArena};
ghost use Rattle.diagram_ops.specs.Compositions.{atoms_of, tcompose, inner_results};
ghost use Rattle.diagram_ops.specs.Steps.{Calculates, joined_tree, joined_results};
ghost use Rattle.pushdown_sym.specs.CellMap.{place_in, trees_in, may_have};
ghost use Rattle.pushdown_sym.specs.Adding.{AreIn, Adds, paired, term_at, child_term};
ghost use Rattle.pushdown_sym.specs.Children.{terms_by, beneath};

use crate::cells::{Cells, is_false};
use crate::gathering::Child;
use class_diagrams::{DiagramFault, Diagrams, Ref};
use diagram_ops::{compose, support};
use std::alloc::Global;
use tp_base::{Atom, ClassSet, NoMemory};

// The disjunction so far and the term of one child: that it may be there, and its cell with the node's diagrams
// in the place of the atoms that it sees.
fn add_child(
    alloc: Global,
    d: &mut Diagrams,
    there: Ref,
    child: Ref,
    by: &[(Atom, Ref)],
    sofar: Ref,
) -> Result<Ref, DiagramFault>
    requires there { IsIn d.old.branches there }
    requires child { IsIn d.old.branches child }
    requires each { All (λ e. IsIn d.old.branches e.1) by.now }
    requires order { IsStrictlyIncreasing (map (λ e. e.0) by.now) }
    requires sofar { IsIn d.old.branches sofar }
    requires arena { IsArena d.old }
    ensures { Adds d.old d.new sofar (child_term d.old there child by.now ∷ []) result }
{
    let composed = compose(alloc, d, child, by)?;
    let term = d.and(there, composed)?;
    d.or(sofar, term)
}

// What a branch becomes, from what its two diagrams became.
fn joined(d: &mut Diagrams, put: Ref, low: Ref, high: Ref) -> Result<Ref, DiagramFault>
    requires put { IsIn d.old.branches put }
    requires low { IsIn d.old.branches low }
    requires high { IsIn d.old.branches high }
    requires arena { IsArena d.old }
    ensures { Calculates d.old d.new (joined_results d.old put low high) (joined_tree d.old put low high) result }
{
    let both = d.and(put, high)?;
    d.or(low, both)
}

// A small child's diagram with the diagrams of a node in the place of the atoms that it sees. Nothing is remembered.
fn composed(d: &mut Diagrams, now: &Cells, kind: u32, f: Ref) -> Result<Ref, DiagramFault>
    requires inside { AreIn d.old.branches now.now }
    requires first { IsIn d.old.branches f }
    requires arena { IsArena d.old }
    requires small { size (tree_at d.old.branches f) ≤ 7 }
    ensures { Calculates d.old d.new (inner_results (tree_at d.old.branches f) (trees_in d.old.branches now.now kind)) (tcompose (tree_at d.old.branches f) (trees_in d.old.branches now.now kind)) result }
{
    match d.branch(f) {
        None => Ok(f),
        Some(branch) => {
            let by_low = composed(d, now, kind, branch.1)?;
            let by_high = composed(d, now, kind, branch.2)?;
            let put = now.get(kind, branch.0);
            joined(d, put, by_low, by_high)
        }
    }
}

// Whether a diagram has one branch at most, which makes three with its leaves.
fn has_one(d: &Diagrams, f: Ref) -> bool
    requires { IsIn d.now.branches f }
    ensures one { result ≡ true → size (tree_at d.now.branches f) ≤ 3 }
    ensures more { result ≡ false → 3 < size (tree_at d.now.branches f) }
{
    match d.branch(f) {
        None => true,
        Some((_, low, high)) => d.branch(low).is_none() && d.branch(high).is_none(),
    }
}

// Whether a diagram has a branch and one more at most on each side, which makes seven with their leaves. A no costs time alone.
fn is_small(d: &Diagrams, f: Ref) -> bool
    requires { IsIn d.now.branches f }
    ensures few { result ≡ true → size (tree_at d.now.branches f) ≤ 7 }
    ensures many { result ≡ false → 5 ≤ size (tree_at d.now.branches f) }
{
    match d.branch(f) {
        None => true,
        Some((_, low, high)) => has_one(d, low) && has_one(d, high),
    }
}

// The disjunction so far and the term of a child with a small diagram: that it may be there, and its cell.
fn add_small(
    d: &mut Diagrams,
    now: &Cells,
    kind: u32,
    parts: (Ref, Ref),
    sofar: Ref,
) -> Result<Ref, DiagramFault>
    requires inside { AreIn d.old.branches now.now }
    requires there { IsIn d.old.branches parts.0 }
    requires child { IsIn d.old.branches parts.1 }
    requires sofar { IsIn d.old.branches sofar }
    requires arena { IsArena d.old }
    requires small { size (tree_at d.old.branches parts.1) ≤ 7 }
    ensures { Adds d.old d.new sofar (term_at d.old.branches parts.0 parts.1 (trees_in d.old.branches now.now kind) ∷ []) result }
{
    let beneath = composed(d, now, kind, parts.1)?;
    let term = d.and(parts.0, beneath)?;
    d.or(sofar, term)
}

// Each of these atoms with its diagram.
fn with_diagrams(
    alloc: Global,
    now: &Cells,
    kind: u32,
    atoms: &ClassSet,
) -> Result<Vec<(Atom, Ref)>, NoMemory>
    ensures each { IfOk result (λ by. by.items ≡ paired (place_in now.now kind) atoms.now) }
    ensures rising { IsStrictlyIncreasing atoms.now }
{
    let mut by = Vec::new(alloc);
    for i in 0..atoms.len() {
        let atom = atoms.at(i);
        by.push((atom, now.get(kind, atom)))?;
    }
    Ok(by)
}

// The diagrams of a node that its child's diagram looks at.
fn seen_by(
    alloc: Global,
    d: &Diagrams,
    now: &Cells,
    kind: u32,
    child: Ref,
) -> Result<Vec<(Atom, Ref)>, NoMemory>
    requires { IsIn d.now.branches child }
    ensures each { IfOk result (λ by. by.items ≡ paired (place_in now.now kind) (atoms_of (tree_at d.now.branches child))) }
    ensures rising { IfOk result (λ by. IsStrictlyIncreasing (atoms_of (tree_at d.now.branches child))) }
{
    let atoms = support(alloc, d, child)?;
    with_diagrams(alloc, now, kind, &atoms)
}

// The disjunction so far and the term of one child, by links from it, if a node of the kind may have its atom.
fn add_one(
    alloc: Global,
    d: &mut Diagrams,
    now: &Cells,
    kind: u32,
    child: Child,
    sofar: Ref,
) -> Result<Ref, DiagramFault>
    requires inside { AreIn d.old.branches now.now }
    requires child { may_have now.now kind child.needs ≡ true → IsIn d.old.branches child.diagram }
    requires sofar { IsIn d.old.branches sofar }
    requires arena { IsArena d.old }
    ensures { Adds d.old d.new sofar (terms_by d.old.branches now.now kind child) result }
{
    let there = now.get(kind, child.needs);
    if is_false(there) {
        return Ok(sofar);
    }
    if is_small(d, child.diagram) {
        return add_small(d, now, kind, (there, child.diagram), sofar);
    }
    match seen_by(alloc, d, now, kind, child.diagram) {
        Ok(by) => add_child(alloc, d, there, child.diagram, &by, sofar),
        Err(_) => Err(DiagramFault::Memory),
    }
}

/// The disjunction so far, joined with the terms of these children. Only children count whose atom a node of the kind may
/// have.
pub(crate) fn add_children(
    alloc: Global,
    d: &mut Diagrams,
    now: &Cells,
    kind: u32,
    children: &[Child],
    start: Ref,
) -> Result<Ref, DiagramFault>
    requires inside { AreIn d.old.branches now.now }
    requires children { All (λ c. IsIn d.old.branches c.diagram) (beneath now.now kind children.now) }
    requires start { IsIn d.old.branches start }
    requires arena { IsArena d.old }
    ensures { Adds d.old d.new start (flat_map (terms_by d.old.branches now.now kind) children.now) result }
{
    let mut sofar = start;
    for i in 0..children.len() {
        let child = children[i];
        sofar = add_one(alloc, d, now, kind, child, sofar)?;
    }
    Ok(sofar)
}
