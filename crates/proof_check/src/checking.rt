//! The check of a whole proof.
ghost use Rattle.std.specs.Prelude.{◌≡◌, ◌==◌, ◌&&◌, ◌↔◌, IsTrue, IfOk, slice_get};
ghost use Rattle.tp_base.specs.Classes.{has_class};
ghost use Rattle.proof_check.specs.Checks.{is_some_and, is_valid};
ghost use Rattle.proof_check.specs.Validity.{IsValid};

use crate::entry_checks::entries_hold;
use crate::firsts::Firsts;
use crate::nodes::Nodes;
use crate::page_checks::{Ground, page_holds};
use crate::proofs::Proof;
use simple_core::{Link, System};
use std::alloc::Global;
use tp_base::{Atom, ClassSet, NoMemory};
use tree_sem::Tree;

/// Whether the proof shows that the page's root gets the atom. Linear in the items, in the lengths of their paths and the sizes of the
/// sets that their rules and entries need, on average.
#[tactic(auto, using(crate::proofs::CheckLemmas::valid_decides))]
pub fn check(
    alloc: Global,
    proof: &Proof,
    system: &System,
    page: &Tree,
    target: Atom,
) -> Result<bool, NoMemory>
    ensures { IfOk result (λ b. IsTrue b ↔ IsValid system.now page.now proof.now target) }
{
    is_valid(alloc, proof, system, page, target)
}

fn is_valid(
    alloc: Global,
    proof: &Proof,
    system: &System,
    page: &Tree,
    target: Atom,
) -> Result<bool, NoMemory>
    ensures { IfOk result (λ b. b ≡ is_valid system.now page.now proof.now target) }
{
    let mut inside = Firsts::new(alloc);
    if !entries_hold(&proof.entries, system, &mut inside)? {
        return Ok(false);
    }
    let nodes = Nodes::of(alloc, proof.page.items())?;
    let ground = Ground {
        system,
        entries: &proof.entries,
        page,
        nodes: &nodes,
        inside: &inside,
    };
    page_holds(proof.page.items(), &ground, target)
}

/// Whether the link gives the atom, with its left side in the set.
pub fn link_holds(links: &[Link], rule: u64, atom: Atom, known: &ClassSet) -> bool
    ensures { result ≡ is_some_and (λ r. r.to == atom && has_class r.from known.now) (slice_get links.now rule) }
{
    match links.get(rule as usize) {
        Some(link) => link.to == atom && known.has(link.from),
        None => false,
    }
}
