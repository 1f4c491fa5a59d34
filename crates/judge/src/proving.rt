//! The answer for an atom that the closed root has: its proof, the number of the proof's steps, and the steps if they are few.
ghost use Rattle.std.specs.Prelude.{◌≤◌, [], length, IfOk};
ghost use Rattle.tree_sem.specs.Nodes.{HasAtom};
ghost use Rattle.simple_core.specs.Systems.{IsSound};
ghost use Rattle.proof_check.specs.Unfolding.{unfolded};
ghost use Rattle.proof_check.specs.Validity.{IsValid};
ghost use Rattle.proof_maker.specs.Needs.{IsCanonical};
ghost use Rattle.proof_maker.specs.PlaceMemos.{IsPlaceMemo};
ghost use Rattle.usage_report.specs.Views.{answer_of};
ghost use Rattle.proof_core.specs.declared.unfolded.TheConstants.{MOST_LISTED};
ghost use Rattle.judge.specs.Answers.{IsShown};
ghost use Rattle.judge.specs.BySeen.{IsSaidProved};
ghost use Rattle.judge.specs.Grounds.{IsReady};

use crate::grounds::Ground;
use proof_core::{Proof, UnfoldFault, Unfolded, steps, unfold};
use proof_maker::{PlaceMemo, ProofGround, ProveFault, prove_next};
use simple_core::Summaries;
use tp_base::{Atom, NoMemory};
use usage_report::Answer;

// The unfolded steps of the proof, where they are no more than the limit of a list.
fn listed(ground: &Ground<'_>, proof: &Proof, atom: Atom) -> Result<Option<Unfolded>, NoMemory>
    requires sound { IsSound ground.now.system.now }
    requires list { ground.now.limits.now.list ≤ MOST_LISTED }
    requires valid { IsValid ground.now.system.now ground.now.page.now proof.now atom }
    ensures { IfOk result (λ shown. IsShown (unfolded ground.now.system.now proof.now ground.now.page.now atom) ground.now.limits.now.list shown) }
{
    let list = u64::from(ground.limits.list);
    match unfold(ground.alloc, proof, ground.system, ground.page, atom, list) {
        Ok(unfolded) => Ok(Some(unfolded)),
        Err(UnfoldFault::OverLimit) => Ok(None),
        Err(UnfoldFault::Memory) => Err(NoMemory),
    }
}

// The answer `used`, with a proof of the atom.
fn used_by(ground: &Ground<'_>, proof: Proof, atom: Atom) -> Result<Answer, NoMemory>
    requires sound { IsSound ground.now.system.now }
    requires list { ground.now.limits.now.list ≤ MOST_LISTED }
    requires canonical { IsCanonical ground.now.system.now ground.now.page.now atom proof }
    requires valid { IsValid ground.now.system.now ground.now.page.now proof atom }
    requires within { length proof.entries ≤ ground.now.limits.now.entries }
    ensures { IfOk result (λ a. IsSaidProved ground.now.system.now ground.now.page.now ground.now.limits.now atom (answer_of a)) }
{
    let count = steps(&proof, ground.system);
    let shown = listed(ground, &proof, atom)?;
    Ok(Answer::Used {
        proof,
        steps: count,
        shown,
    })
}

/// The answer for an atom that the closed root has. The cost is that of `prove_next` and `unfold`.
pub(crate) fn proved<S: Summaries>(
    ground: &Ground<'_>,
    sums: &S,
    places: &mut PlaceMemo,
    atom: Atom,
) -> Result<Answer, NoMemory>
    requires ready { IsReady (S.system sums.now) (S.known sums.now) ground.now }
    requires has { HasAtom ground.now.closed.now.labels [] atom }
    requires places { IsPlaceMemo ground.now.system.now places.old }
    ensures places { IsPlaceMemo ground.now.system.now places.new }
    ensures answer { IfOk result (λ a. IsSaidProved ground.now.system.now ground.now.page.now ground.now.limits.now atom (answer_of a)) }
{
    let entries = ground.limits.entries;
    let base = ProofGround {
        page: ground.page,
        system: ground.system,
        rules: ground.rules,
        closed: ground.closed,
    };
    match prove_next(ground.alloc, &base, sums, places, atom, entries) {
        Ok(proof) => used_by(ground, proof, atom),
        Err(ProveFault::Unshown) => Ok(Answer::UsedUnshown),
        Err(ProveFault::Memory) => Err(NoMemory),
    }
}
