//! The terms of a cell from the parent.
ghost use Rattle.std.specs.List.{flat_map};
ghost use Rattle.class_diagrams.specs.Arena.{IsIn, IsArena};
ghost use Rattle.pushdown_sym.specs.Adding.{Adds, of_up};
ghost use Rattle.pushdown_sym.specs.Givers.{of_place};

use class_diagrams::{DiagramFault, Diagrams, Ref};
use simple_core::Link;
use tp_base::Atom;

// The disjunction so far and the term of one link to the parent, if that gives the atom.
fn add_up(d: &mut Diagrams, atom: Atom, link: &Link, sofar: Ref) -> Result<Ref, DiagramFault>
    requires sofar { IsIn d.old.branches sofar }
    requires arena { IsArena d.old }
    ensures { Adds d.old d.new sofar (of_up atom link.now) result }
{
    if link.to == atom {
        let term = d.var(link.from)?;
        d.or(sofar, term)
    } else {
        Ok(sofar)
    }
}

// The same for the link at a place.
fn add_up_at(
    d: &mut Diagrams,
    atom: Atom,
    links: &[Link],
    place: usize,
    sofar: Ref,
) -> Result<Ref, DiagramFault>
    requires sofar { IsIn d.old.branches sofar }
    requires arena { IsArena d.old }
    ensures { Adds d.old d.new sofar (of_place (of_up atom) links.now place) result }
{
    if place < links.len() {
        add_up(d, atom, &links[place], sofar)
    } else {
        Ok(sofar)
    }
}

/// The disjunction so far, joined with the terms of the links at these places.
pub(crate) fn add_ups(
    d: &mut Diagrams,
    atom: Atom,
    links: &[Link],
    places: &[usize],
    start: Ref,
) -> Result<Ref, DiagramFault>
    requires start { IsIn d.old.branches start }
    requires arena { IsArena d.old }
    ensures { Adds d.old d.new start (flat_map (of_place (of_up atom) links.now) places.now) result }
{
    let mut sofar = start;
    for i in 0..places.len() {
        let place = places[i];
        sofar = add_up_at(d, atom, links, place, sofar)?;
    }
    Ok(sofar)
}
