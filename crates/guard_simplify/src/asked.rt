//! The goals: guards that are asked for. A selector's guard is made while it is numbered, and not kept.
ghost use Rattle.std.specs.Prelude.{◌≡◌, ◌<◌, ◌^◌, map, IfOk};
ghost use Rattle.guard_sem.specs.Guards.{always, both, guards_of};
ghost use Rattle.guard_sem.specs.OfSelectors as spec;
ghost use Rattle.sel_text.specs.Parts.{join_of};
ghost use Rattle.sel_text.specs.Views.{selector_of};
ghost use Rattle.guard_simplify.specs.Numbered.{shape_of, IsNumbered, AreNumbered};
ghost use Rattle.guard_simplify.specs.Asked.{asked_of};

use crate::formula_numbers::{enter, enter_one, number};
use crate::keys::{Key, Shape};
use guard_sem::{Guard, of_compound, of_selector};
use indexmap::IndexSet;
use sel_text::{Compound, Join, Selector};
use smallvec::SmallVec;
use std::alloc::Global;
use tp_base::NoMemory;

/// A guard that is asked for: one that is there, or that of a selector.
#[derive(Clone, Copy)]
pub enum Asked<'a> {
    Guard(&'a Guard),
    Selector(&'a Selector),
}

// What a join asks above a node.
fn shape_of_join(join: Join) -> Shape
    ensures { result ≡ shape_of (spec.of_join (join_of join) always) }
{
    match join {
        Join::Inside => Shape::Ancestor,
        Join::Child => Shape::Parent,
    }
}

// The number of the atom of a compound.
fn compound_number(
    alloc: Global,
    first: usize,
    keys: &mut IndexSet<Key>,
    compound: &Compound,
) -> Result<usize, NoMemory>
    requires { first < 2 ^ 32 }
    ensures { IfOk result (λ a. IsNumbered first keys.old.keys keys.new.keys (spec.of_compound compound.now.atoms) a) }
{
    number(alloc, first, keys, &of_compound(alloc, compound)?)
}

// The number of the atom of a compound and of what a join asks above it, of which no guard is made.
fn pair_number(
    alloc: Global,
    first: usize,
    keys: &mut IndexSet<Key>,
    above: &Compound,
    join: Join,
    part: &Compound,
) -> Result<usize, NoMemory>
    requires { first < 2 ^ 32 }
    ensures { IfOk result (λ a. IsNumbered first keys.old.keys keys.new.keys (both (spec.of_compound part.now.atoms) (spec.of_join (join_of join) (spec.of_compound above.now.atoms))) a) }
{
    let own = compound_number(alloc, first, keys, part)?;
    let over = compound_number(alloc, first, keys, above)?;
    let up = enter_one(alloc, first, keys, shape_of_join(join), over)?;
    let parts = SmallVec::from_buf(alloc, [own, up]);
    enter(first, keys, Shape::All, parts)
}

// The number of the atom of a selector's guard.
fn selector_number(
    alloc: Global,
    first: usize,
    keys: &mut IndexSet<Key>,
    selector: &Selector,
) -> Result<usize, NoMemory>
    requires { first < 2 ^ 32 }
    ensures { IfOk result (λ a. IsNumbered first keys.old.keys keys.new.keys (spec.of_selector (selector_of selector.now)) a) }
{
    if let ([above, part], [join]) = (selector.parts.items(), selector.joins.items()) {
        return pair_number(alloc, first, keys, above, *join, part);
    }
    number(alloc, first, keys, &of_selector(alloc, selector)?)
}

// The number of the atom of a guard that is asked for. Linear in the guard, with a look-up for each part.
fn asked_number(
    alloc: Global,
    first: usize,
    keys: &mut IndexSet<Key>,
    asked: &Asked<'_>,
) -> Result<usize, NoMemory>
    requires { first < 2 ^ 32 }
    ensures { IfOk result (λ a. IsNumbered first keys.old.keys keys.new.keys (asked_of asked.now) a) }
{
    match asked {
        Asked::Guard(guard) => number(alloc, first, keys, guard),
        Asked::Selector(selector) => selector_number(alloc, first, keys, selector),
    }
}

/// Goals for these guards, one after another. Linear in them.
pub(crate) fn each_asked(alloc: Global, guards: &[Guard]) -> Result<Vec<Asked<'_>>, NoMemory>
    ensures { IfOk result (λ v. map asked_of v.items ≡ guards.now) }
{
    let mut asked = Vec::with_capacity(alloc, guards.len())?;
    'guards: for guard in guards {
        asked.push(Asked::Guard(guard))?;
    }
    Ok(asked)
}

/// The numbers of the atoms of the guards, one after another, at the cost of `number`. One guard of a selector is there at a time.
pub(crate) fn asked_numbers(
    alloc: Global,
    first: usize,
    keys: &mut IndexSet<Key>,
    guards: &[Asked<'_>],
) -> Result<Vec<usize>, NoMemory>
    requires { first < 2 ^ 32 }
    ensures { IfOk result (λ made. AreNumbered first keys.old.keys keys.new.keys (guards_of (map asked_of guards.now)) made.items) }
{
    let mut made = Vec::with_capacity(alloc, guards.len())?;
    'guards: for guard in guards {
        made.push(asked_number(alloc, first, keys, guard)?)?;
    }
    Ok(made)
}
