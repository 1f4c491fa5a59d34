//! The sets that exact calls make, as one bit for each node.
ghost use Rattle.std.specs.Prelude.{◌≡◌, ◌↔◌, ℕ, List, [], ◌∷◌, false, Some, IsTrue, IfOk};
ghost use Rattle.node_marks.specs.Marks.{IsMarked};
ghost use Rattle.jq_stmts.specs.Views.{atoms_of, call_of};
ghost use Rattle.jq_stmts.specs.Sharp.{plain, closest as spec_closest, siblings as spec_siblings, first as spec_first};
ghost use Rattle.jq_stmts.specs.SharpViews.{with_kind};
ghost use Rattle.jq_stmts.specs.declared.sharp.SharpKind.TheVariants as sharp;
ghost use Rattle.jq_exact.specs.Exact.{IsMadeExactly};

use jq_sem::{fitting, may_fit, of_call};
use jq_stmts::{Call, SharpKind};
use node_marks::{Marks, NumberedTree};
use sel_text::Compound;
use tp_base::NoMemory;

/// What a call makes of a set, of which some may be kept.
pub fn of_exact_call(
    tree: &NumberedTree,
    call: &Call,
    kind: Option<SharpKind>,
    marks: &Marks,
) -> Result<Marks, NoMemory>
    ensures { IfOk result (λ m. (v : List ℕ) → IsMarked tree.now m v ↔ IsMadeExactly tree.now (IsMarked tree.now marks.now) (with_kind (call_of call.now) kind) v) }
{
    match kind {
        None => of_call(tree, call, marks),
        Some(SharpKind::Closest) => of_closest(tree, call, marks),
        Some(SharpKind::Siblings) => of_siblings(tree, call, marks),
        Some(SharpKind::First) => of_first(tree, call, marks),
    }
}

fn of_closest(tree: &NumberedTree, call: &Call, marks: &Marks) -> Result<Marks, NoMemory>
    ensures { IfOk result (λ m. (v : List ℕ) → IsMarked tree.now m v ↔ IsMadeExactly tree.now (IsMarked tree.now marks.now) (with_kind (call_of call.now) (Some sharp.Closest)) v) }
{
    match call {
        Call::Around(cs) => closest(tree, cs.items(), marks),
        _ => of_call(tree, call, marks),
    }
}

fn of_siblings(tree: &NumberedTree, call: &Call, marks: &Marks) -> Result<Marks, NoMemory>
    ensures { IfOk result (λ m. (v : List ℕ) → IsMarked tree.now m v ↔ IsMadeExactly tree.now (IsMarked tree.now marks.now) (with_kind (call_of call.now) (Some sharp.Siblings)) v) }
{
    match call {
        Call::Near(cs) => siblings(tree, cs.items(), marks),
        _ => of_call(tree, call, marks),
    }
}

fn of_first(tree: &NumberedTree, call: &Call, marks: &Marks) -> Result<Marks, NoMemory>
    ensures { IfOk result (λ m. (v : List ℕ) → IsMarked tree.now m v ↔ IsMadeExactly tree.now (IsMarked tree.now marks.now) (with_kind (call_of call.now) (Some sharp.First)) v) }
{
    if takes_all(call) {
        return tree.first_in(marks);
    }
    of_call(tree, call, marks)
}

/// Whether the call is `Filter` of one compound without atoms.
pub fn takes_all(call: &Call) -> bool
    ensures yes { IsTrue result → with_kind (call_of call.now) (Some sharp.First) ≡ spec_first }
    ensures no { (result ≡ false) → with_kind (call_of call.now) (Some sharp.First) ≡ plain (call_of call.now) }
{
    match call {
        Call::Filter(cs) => is_any(cs.items()),
        _ => false,
    }
}

// Whether there is one compound, and it has no atoms.
fn is_any(compounds: &[Compound]) -> bool
    ensures { IsTrue result ↔ (atoms_of compounds.now ≡ [] ∷ []) }
{
    match compounds.split_first() {
        None => false,
        Some((first, others)) => others.is_empty() && first.atoms.items().is_empty(),
    }
}

// From each node of the set upward, itself first, the first one that one of the compounds fits.
fn closest(tree: &NumberedTree, compounds: &[Compound], marks: &Marks) -> Result<Marks, NoMemory>
    ensures { IfOk result (λ m. (v : List ℕ) → IsMarked tree.now m v ↔ IsMadeExactly tree.now (IsMarked tree.now marks.now) (spec_closest (atoms_of compounds.now)) v) }
{
    let fit = fitting(tree, compounds)?;
    let over = tree.free_over(marks, &fit)?;
    let reached = tree.in_either(marks, &over)?;
    tree.in_both(&fit, &reached)
}

// What has another child of its parent in the set, and may fit.
fn siblings(tree: &NumberedTree, compounds: &[Compound], marks: &Marks) -> Result<Marks, NoMemory>
    ensures { IfOk result (λ m. (v : List ℕ) → IsMarked tree.now m v ↔ IsMadeExactly tree.now (IsMarked tree.now marks.now) (spec_siblings (atoms_of compounds.now)) v) }
{
    let may = may_fit(tree, compounds)?;
    let beside = tree.beside(marks)?;
    tree.in_both(&may, &beside)
}
