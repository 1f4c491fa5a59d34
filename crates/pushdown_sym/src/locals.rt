//! The terms of a cell from rules that look at one node.
ghost use Rattle.std.specs.Prelude.{ℕ, true};
ghost use Rattle.std.specs.List.{flat_map};
ghost use Rattle.class_diagrams.specs.Trees.{leaf};
ghost use Rattle.class_diagrams.specs.Arena.{IsIn, IsArena};
ghost use Rattle.diagram_ops.specs.Steps.{Calculates};
ghost use Rattle.pushdown_sym.specs.CellMap.{place_in, trees_in};
ghost use Rattle.pushdown_sym.specs.Terms.{conjunction, conjunctions};
ghost use Rattle.pushdown_sym.specs.Adding.{AreIn, Adds, of_local};
ghost use Rattle.pushdown_sym.specs.Givers.{of_place};

use crate::cells::Cells;
use class_diagrams::{DiagramFault, Diagrams, Ref};
use simple_core::Local;
use tp_base::{Atom, ClassSet};

/// The diagram of the labels of the parent under which a node has all these atoms.
pub(crate) fn all_of(
    d: &mut Diagrams,
    now: &Cells,
    kind: u32,
    needs: &ClassSet,
) -> Result<Ref, DiagramFault>
    requires inside { (a : ℕ) → IsIn d.old.branches (place_in now.now kind a) }
    requires arena { IsArena d.old }
    ensures { Calculates d.old d.new (conjunctions (trees_in d.old.branches now.now) kind (leaf true) needs.now) (conjunction (trees_in d.old.branches now.now) kind (leaf true) needs.now) result }
{
    if needs.len() == 0 {
        return Ok(Diagrams::leaf(true));
    }
    let mut sofar = now.get(kind, needs.at(0));
    for i in 1..needs.len() {
        sofar = d.and(sofar, now.get(kind, needs.at(i)))?;
    }
    Ok(sofar)
}

// The disjunction so far and the term of one rule, if that gives the atom.
fn add_local(
    d: &mut Diagrams,
    now: &Cells,
    kind: u32,
    atom: Atom,
    rule: &Local,
    sofar: Ref,
) -> Result<Ref, DiagramFault>
    requires inside { AreIn d.old.branches now.now }
    requires sofar { IsIn d.old.branches sofar }
    requires arena { IsArena d.old }
    ensures { Adds d.old d.new sofar (of_local (trees_in d.old.branches now.now) kind atom rule.now) result }
{
    if rule.gives == atom {
        let term = all_of(d, now, kind, &rule.needs)?;
        d.or(sofar, term)
    } else {
        Ok(sofar)
    }
}

// The same for the rule at a place.
fn add_local_at(
    d: &mut Diagrams,
    now: &Cells,
    kind: u32,
    atom: Atom,
    rules: &[Local],
    place: usize,
    sofar: Ref,
) -> Result<Ref, DiagramFault>
    requires inside { AreIn d.old.branches now.now }
    requires sofar { IsIn d.old.branches sofar }
    requires arena { IsArena d.old }
    ensures { Adds d.old d.new sofar (of_place (of_local (trees_in d.old.branches now.now) kind atom) rules.now place) result }
{
    if place < rules.len() {
        add_local(d, now, kind, atom, &rules[place], sofar)
    } else {
        Ok(sofar)
    }
}

/// The disjunction so far, joined with the terms of the rules at these places.
pub(crate) fn add_locals(
    d: &mut Diagrams,
    now: &Cells,
    kind: u32,
    atom: Atom,
    rules: &[Local],
    places: &[usize],
    start: Ref,
) -> Result<Ref, DiagramFault>
    requires inside { AreIn d.old.branches now.now }
    requires start { IsIn d.old.branches start }
    requires arena { IsArena d.old }
    ensures { Adds d.old d.new start (flat_map (of_place (of_local (trees_in d.old.branches now.now) kind atom) rules.now) places.now) result }
{
    let mut sofar = start;
    for i in 0..places.len() {
        let place = places[i];
        sofar = add_local_at(d, now, kind, atom, rules, place, sofar)?;
    }
    Ok(sofar)
}
