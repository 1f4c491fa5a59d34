//! What summaries answer about a pair.
ghost use Rattle.std.specs.Prelude.{◌≡◌, OnOk, IfOk};
ghost use Rattle.simple_core.specs.Systems.{IsSound};

use simple_core::{GainFault, Summaries, System};
use std::alloc::Global;
use test_building::{Script, is_sound, rules_of, system_of};
use tp_base::{Atom, ClassSet};

/// No atom of a small system has this number.
pub const END: u32 = 25;

/// The system of a script, which is sound. Else it is as if no memory was to be had, and the test fails.
pub fn sound_of(alloc: Global, script: Script) -> Result<System, GainFault>
    ensures { IfOk result (λ s. IsSound s) }
{
    let system = system_of(alloc, rules_of(script))?;
    if !is_sound(&system) {
        return Err(GainFault::Memory);
    }
    Ok(system)
}

/// The label of a kind below a label, as of the system: nothing of another kind or atom.
pub fn ask<S: Summaries>(
    system: &System,
    sums: &mut S,
    kind: u32,
    parent: &ClassSet,
) -> Result<ClassSet, GainFault>
    requires { S.system sums.old ≡ system.now }
    ensures system { S.system sums.new ≡ system.now }
    ensures known { OnOk result (S.known sums.new (kind, parent.now)) }
{
    if kind as usize >= system.kinds.items().len() {
        return Err(GainFault::Memory);
    }
    if !parent.within(&system.visible) {
        return Err(GainFault::Memory);
    }
    sums.gain(kind, parent)
}

fn are_same(one: &ClassSet, other: &ClassSet) -> bool {
    one.within(other) && other.within(one)
}

// Whether both tell the same first round of each atom, or of both that it never comes.
fn tell_same_rounds<S: Summaries, T: Summaries>(
    one: &S,
    other: &T,
    kind: u32,
    parent: &ClassSet,
) -> bool
    requires one { S.known one.now (kind, parent.now) }
    requires other { T.known other.now (kind, parent.now) }
{
    for atom in 0..END {
        let first = one.first_round(kind, parent, Atom(atom));
        if other.first_round(kind, parent, Atom(atom)) != first {
            return false;
        }
    }
    true
}

/// Whether both answer the same about a pair: its label, and the first round of each atom that comes at all.
pub fn answer_alike<S: Summaries, T: Summaries>(
    system: &System,
    one: &mut S,
    other: &mut T,
    kind: u32,
    parent: &ClassSet,
) -> Result<bool, GainFault>
    requires one { S.system one.old ≡ system.now }
    requires other { T.system other.old ≡ system.now }
{
    let label = ask(system, one, kind, parent)?;
    let same = ask(system, other, kind, parent)?;
    Ok(are_same(&label, &same) && tell_same_rounds(one, other, kind, parent))
}
