//! The construction of the canonical proof.
ghost use Rattle.std.specs.Prelude.{◌≡◌, ◌≤◌, [], length, IfOk, IsErrOf};
ghost use Rattle.tree_sem.specs.Nodes.{HasAtom};
ghost use Rattle.simple_core.specs.Systems.{IsSound};
ghost use Rattle.simple_core.specs.Pairs.{Pair, Asked};
ghost use Rattle.simple_core.specs.Givers.{AreAllGivers};
ghost use Rattle.closed_page.specs.ClosedPages.{IsClosedPage};
ghost use Rattle.proof_check.specs.Validity.{IsValid};
ghost use Rattle.proof_maker.specs.Forests.{KeepsForests};
ghost use Rattle.proof_maker.specs.Needs.{IsCanonical, UsesMore};
ghost use Rattle.proof_maker.specs.PlaceMemos.{IsPlaceMemo};
ghost use Rattle.proof_maker.specs.Making.{IsMakeable, IsProofOf};

use crate::entries::{entries_of, page_items};
use crate::looking::needs_of;
use crate::place_memo::PlaceMemo;
use crate::worlds::World;
use class_diagrams::Marks;
use closed_page::Closed;
use proof_check::Proof;
use proof_needs::{Needs, numbers_of, orders_of};
use simple_core::{AllGivers, Summaries, System};
use std::alloc::Global;
use thiserror::Error;
use tp_base::{Atom, NoMemory};
use tree_sem::Tree;

/// Why a proof wasn't made.
#[derive(Clone, Copy, Debug, PartialEq, Eq, Error)]
pub enum ProveFault {
    #[error("more entries than the limit")]
    Unshown,
    #[error("no memory")]
    Memory,
}

impl From<NoMemory> for ProveFault {
    ghost use Rattle.proof_maker.specs.declared.making.ProveFault.TheVariants.{Memory};

    ghost from_gives = { λ _ e. e ≡ Memory };

    fn from(_error: NoMemory) -> ProveFault {
        ProveFault::Memory
    }
}

/// The ground of proofs: a page, a system with its rules indexed, and the closed page.
#[derive(Clone, Copy)]
pub struct ProofGround<'a> {
    pub page: &'a Tree,
    pub system: &'a System,
    pub rules: &'a AllGivers,
    pub closed: &'a Closed,
}

/// The canonical proof that the page's root gets the target, where it has no more entries than the limit. Each atom that is
/// needed is looked at once. A look costs a look-up of a first round for each premise of the rules that give the atom, twice
/// at an added node. Where children of an added node are looked at, the summaries are asked for its atoms, once for each
/// kind and label of a parent, and these are sorted. A link from a child that gives the atom costs more where no child in
/// the page has its left side. Then the visible part of the label is made, and each spawn rule is looked at.
pub fn prove<S: Summaries>(
    alloc: Global,
    page: &Tree,
    system: &System,
    closed: &Closed,
    sums: &S,
    target: Atom,
    limit: u32,
) -> Result<Proof, ProveFault>
    requires sound { IsSound system.now }
    requires closed { IsClosedPage system.now page.now closed.now }
    requires made { S.system sums.now ≡ system.now }
    requires known { (q : Pair) → Asked system.now page.now q → S.known sums.now q }
    requires target { HasAtom closed.now.labels [] target }
    requires forests { KeepsForests system.now page.now }
    ensures canonical { IfOk result (λ p. IsCanonical system.now page.now target p) }
    ensures valid { IfOk result (λ p. IsValid system.now page.now p target) }
    ensures within { IfOk result (λ p. length p.entries ≤ limit) }
    ensures unshown { IsErrOf result ProveFault.Unshown → UsesMore system.now page.now target limit }
{
    let rules = AllGivers::of(alloc, system)?;
    let ground = ProofGround {
        page,
        system,
        rules: &rules,
        closed,
    };
    let mut memo = PlaceMemo::new(alloc);
    prove_next(alloc, &ground, sums, &mut memo, target, limit)
}

/// The same, proof after proof over one system whose rules are indexed already. The atoms of an added node are asked for in
/// the first proof that looks at its children, and remembered.
pub fn prove_next<S: Summaries>(
    alloc: Global,
    ground: &ProofGround<'_>,
    sums: &S,
    memo: &mut PlaceMemo,
    target: Atom,
    limit: u32,
) -> Result<Proof, ProveFault>
    requires sound { IsSound ground.now.system.now }
    requires rules { AreAllGivers ground.now.system.now ground.now.rules.now }
    requires closed { IsClosedPage ground.now.system.now ground.now.page.now ground.now.closed.now }
    requires made { S.system sums.now ≡ ground.now.system.now }
    requires known { (q : Pair) → Asked ground.now.system.now ground.now.page.now q → S.known sums.now q }
    requires target { HasAtom ground.now.closed.now.labels [] target }
    requires forests { KeepsForests ground.now.system.now ground.now.page.now }
    requires memo { IsPlaceMemo ground.now.system.now memo.old }
    ensures canonical { IfOk result (λ p. IsCanonical ground.now.system.now ground.now.page.now target p) }
    ensures valid { IfOk result (λ p. IsValid ground.now.system.now ground.now.page.now p target) }
    ensures within { IfOk result (λ p. length p.entries ≤ limit) }
    ensures unshown { IsErrOf result ProveFault.Unshown → UsesMore ground.now.system.now ground.now.page.now target limit }
    ensures memo { IsPlaceMemo ground.now.system.now memo.new }
{
    let marks = Marks::of(alloc, &ground.system.visible)?;
    let world = World {
        page: ground.page,
        system: ground.system,
        closed: ground.closed,
        rules: ground.rules,
        marks: &marks,
        sums,
    };
    match needs_of(alloc, &world, target, limit, memo)? {
        Some(needs) => Ok(proof_of(alloc, &needs, ground.system)?),
        None => Err(ProveFault::Unshown),
    }
}

// The proof of what is needed.
fn proof_of(alloc: Global, needs: &Needs, system: &System) -> Result<Proof, NoMemory>
    requires makeable { IsMakeable needs.now }
    ensures { IfOk result (IsProofOf system.now needs.now) }
{
    let orders = orders_of(alloc, needs)?;
    let order = numbers_of(alloc, &needs.drafts, &orders)?;
    let entries = entries_of(alloc, needs, system, &orders.triples, &order)?;
    let page = page_items(alloc, needs, &orders.page.wants, &order)?;
    Ok(Proof { entries, page })
}
