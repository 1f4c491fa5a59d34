//! Simultaneous composition: diagrams in the place of all atoms at once.
ghost use Rattle.std.specs.Prelude.{◌≡◌, ◌<◌, ℕ, List, ◌∷◌, [], All, Contains, map, length, IsErrOf, IfOk};
ghost use Rattle.std.specs.List.Sorted.{IsStrictlyIncreasing};
ghost use Rattle.class_diagrams.specs.References.{Reference};
ghost use Rattle.class_diagrams.specs.Trees.{Tree};
ghost use Rattle.class_diagrams.specs.Arena.{tree_at, IsIn, IsArena, StartsWith};
ghost use Rattle.diagram_ops.specs.Compositions.{tree_by};
ghost use Rattle.diagram_ops.specs.Memo.{AreRight};
ghost use Rattle.diagram_ops.specs.Starts.{IsStart};
ghost use Rattle.diagram_ops.specs.Steps.{held_with_all, AreAmong, Calculates, composed_tree, composed_results, joined_tree, joined_results};

use crate::memo::Memo;
use class_diagrams::{DiagramFault, Diagrams, Ref};
use std::alloc::Global;
use tp_base::Atom;

// A composition that is known, or the atom and the two diagrams of a branch.
enum Start {
    Known(Ref),
    Parts { atom: Atom, low: Ref, high: Ref },
}

/// Simultaneous composition: `f` with the diagram of each atom in the atom's place. An atom that `by` doesn't name is in no
/// set. It costs two operations for each different branch of `f`, and a recursion no deeper than the number of its atoms.
pub fn compose(
    alloc: Global,
    d: &mut Diagrams,
    f: Ref,
    by: &[(Atom, Ref)],
) -> Result<Ref, DiagramFault>
    requires first { IsIn d.old.branches f }
    requires each { All (λ e. IsIn d.old.branches e.1) by.now }
    requires order { IsStrictlyIncreasing (map (λ e. e.0) by.now) }
    ensures tree { IfOk result (λ r. tree_at d.new.branches r ≡ composed_tree d.old f by.now) }
    ensures inside { IfOk result (λ r. IsIn d.new.branches r) }
    ensures full { IsErrOf result DiagramFault.Full → d.old.limit < length (held_with_all d.old.branches (composed_results d.old f by.now)) }
    ensures stays { StartsWith d.old.branches d.new.branches }
    ensures only { AreAmong d.new.branches (held_with_all d.old.branches (composed_results d.old f by.now)) }
    ensures references { (p : Reference) → IsIn d.old.branches p
        → IsIn d.new.branches p × (tree_at d.new.branches p ≡ tree_at d.old.branches p) }
    ensures limit { d.new.limit ≡ d.old.limit }
    ensures arena { IsArena d.new }
{
    let mut memo = Memo::new(alloc);
    composed(d, &mut memo, f, by)
}

fn composed(
    d: &mut Diagrams,
    memo: &mut Memo,
    f: Ref,
    by: &[(Atom, Ref)],
) -> Result<Ref, DiagramFault>
    requires first { IsIn d.old.branches f }
    requires each { All (λ e. IsIn d.old.branches e.1) by.now }
    requires order { IsStrictlyIncreasing (map (λ e. e.0) by.now) }
    requires right { AreRight d.old.branches (tree_by d.old.branches by.now) memo.old }
    ensures calculates { Calculates d.old d.new (composed_results d.old f by.now) (composed_tree d.old f by.now) result }
    ensures right { AreRight d.new.branches (tree_by d.old.branches by.now) memo.new }
{
    match begin(d, memo, f) {
        Start::Known(known) => Ok(known),
        Start::Parts { atom, low, high } => {
            let low = composed(d, memo, low, by)?;
            let high = composed(d, memo, high, by)?;
            let put = diagram_of(by, atom);
            let whole = joined(d, put, low, high)?;
            memo.note(f, whole)?;
            Ok(whole)
        }
    }
}

// The composition where it is known, or the parts of the diagram. Kept apart from the recursion, whose frames
// are to be small.
#[inline(never)]
fn begin(d: &Diagrams, memo: &Memo, f: Ref) -> Start
    requires { IsIn d.now.branches f }
    ensures start { (by : ℕ → Tree) → AreRight d.now.branches by memo.now → IsStart d.now.branches by f result }
    ensures arena { IsArena d.now }
{
    match d.branch(f) {
        None => Start::Known(f),
        Some((atom, low, high)) => match memo.recall(&f) {
            Some(known) => Start::Known(known),
            None => Start::Parts { atom, low, high },
        },
    }
}

// What a branch becomes, from what its two diagrams became.
#[inline(never)]
fn joined(d: &mut Diagrams, put: Ref, low: Ref, high: Ref) -> Result<Ref, DiagramFault>
    requires put { IsIn d.old.branches put }
    requires low { IsIn d.old.branches low }
    requires high { IsIn d.old.branches high }
    requires arena { IsArena d.old }
    ensures { Calculates d.old d.new (joined_results d.old put low high) (joined_tree d.old put low high) result }
{
    let both = d.and(put, high)?;
    d.or(low, both)
}

// The diagram in the place of an atom. Logarithmic in their number.
fn diagram_of(by: &[(Atom, Ref)], atom: Atom) -> Ref
    requires { IsStrictlyIncreasing (map (λ e. e.0) by.now) }
    ensures tree { (branches : List Tree) → tree_at branches result ≡ tree_by branches by.now atom }
    ensures inside { (branches : List Tree) → All (λ e. IsIn branches e.1) by.now → IsIn branches result }
{
    match by.binary_search_by_key(&atom, |entry| entry.0) {
        Ok(place) => by[place].1,
        Err(_) => Diagrams::leaf(false),
    }
}
