//! The worklist of a proof: each atom that is wanted is looked at, and its premises are wanted then.
ghost use Rattle.std.specs.Prelude.{◌≡◌, ◌<◌, [], suc, length, slice_get, Some, unwrap_or, option_map, Contains, IfOk, OnOk, MatchOption};
ghost use Rattle.tree_sem.specs.Nodes.{HasAtom};
ghost use Rattle.proof_maker.specs.Needs.{UsesMore};
ghost use Rattle.proof_maker.specs.Worlds.{IsReady};
ghost use Rattle.proof_maker.specs.PlaceMemos.{IsPlaceMemo};
ghost use Rattle.proof_needs.specs.Spots.{paths_in, triples_in, triple_of, spot_in};
ghost use Rattle.proof_needs.specs.Following.{Enters, IsEntered};
ghost use Rattle.proof_maker.specs.Glances.{IsGlance, AsksAt};
ghost use Rattle.proof_maker.specs.Working.{IsWorking, IsStart, IsDone};

use crate::glances::{Glance, glance_added, glance_node};
use crate::place_memo::PlaceMemo;
use crate::worlds::World;
use indexmap::IndexSet;
use proof_needs::{
    Choice, Draft, Needs, Spot, Tie, TripleKey, Want, follow, from_of, node_number, triple_number,
    want,
};
use simple_core::{Spawn, Summaries, System};
use std::alloc::Global;
use tp_base::{Atom, ClassSet, NoMemory, Path};

// Looks at an atom that is wanted.
fn glance_at<S: Summaries>(
    alloc: Global,
    needs: &Needs,
    world: &World<'_, S>,
    want: &Want,
    memo: &mut PlaceMemo,
) -> Result<Glance, NoMemory>
    requires ready { IsReady S.Summaries world.now }
    requires working { IsWorking world.now.system.now world.now.page.now (S.known world.now.sums.now) needs.now }
    requires wanted { Contains needs.now.wants.keys want.now }
    requires memo { IsPlaceMemo world.now.system.now memo.old }
    ensures glance { IfOk result (IsGlance world.now.system.now world.now.page.now (spot_in (paths_in needs.now.nodes.keys) (triples_in needs.now.triples.keys) want.now.spot) want.now.atom) }
    ensures asking { OnOk result (AsksAt world.now.system.now (S.known world.now.sums.now) (spot_in (paths_in needs.now.nodes.keys) (triples_in needs.now.triples.keys) want.now.spot)) }
    ensures memo { IsPlaceMemo world.now.system.now memo.new }
{
    match want.spot {
        Spot::Page(n) => glance_node(alloc, &needs.nodes, n, world, want.atom),
        Spot::Added(n) => {
            let key = key_at(&needs.triples, n);
            glance_added(alloc, key, world, want.atom, memo)
        }
    }
}

// The triple of a number.
fn key_at(triples: &IndexSet<TripleKey>, n: usize) -> &TripleKey
    requires { n < length triples.now.keys }
    ensures { slice_get (triples_in triples.now.keys) n ≡ Some (triple_of result.now) }
{
    &triples.as_slice()[n]
}

// The kind that a spawn rule adds.
fn kind_at(spawns: &[Spawn], spawn: u64) -> u32
    ensures { result ≡ unwrap_or (option_map (λ c. c.kind) (slice_get spawns.now spawn)) 0 }
{
    match spawns.get(spawn as usize) {
        Some(spawn) => spawn.kind,
        None => 0,
    }
}

// Gives a triple a number, and a new one a tie.
fn enter_triple(
    alloc: Global,
    triples: &mut IndexSet<TripleKey>,
    ties: &mut Vec<Tie>,
    kind: u32,
    parent: ClassSet,
    atom: Atom,
) -> Result<usize, NoMemory>
    ensures { IfOk result (IsEntered (record { kind = kind; parent = parent; atom = atom }) (triples_in triples.old.keys) (triples_in triples.new.keys) ties.old.items ties.new.items) }
{
    let (number, new) = triple_number(triples, kind, parent, atom)?;
    if new {
        ties.push(Tie {
            above: ClassSet::new(alloc),
            users: Vec::new(alloc),
        })?;
    }
    Ok(number)
}

// For a spawn, the number of the triple of the child that it adds.
fn enter(
    alloc: Global,
    needs: &mut Needs,
    system: &System,
    choice: Choice,
    below: ClassSet,
) -> Result<Option<usize>, NoMemory>
    ensures enters { IfOk result (Enters system.now below (triples_in needs.old.triples.keys) (triples_in needs.new.triples.keys) needs.old.ties.items needs.new.ties.items choice) }
    ensures nodes { needs.new.nodes ≡ needs.old.nodes }
    ensures wants { needs.new.wants ≡ needs.old.wants }
    ensures drafts { needs.new.drafts ≡ needs.old.drafts }
    ensures target { needs.new.target ≡ needs.old.target }
{
    match choice {
        Choice::Spawn(l, c) => {
            let kind = kind_at(system.child.items(), c);
            let from = from_of(system.down.items(), l as usize);
            let number = enter_triple(
                alloc,
                &mut needs.triples,
                &mut needs.ties,
                kind,
                below,
                from,
            )?;
            Ok(Some(number))
        }
        _ => Ok(None),
    }
}

// Looks at the next atom.
fn look<S: Summaries>(
    alloc: Global,
    needs: &mut Needs,
    world: &World<'_, S>,
    memo: &mut PlaceMemo,
) -> Result<(), NoMemory>
    requires ready { IsReady S.Summaries world.now }
    requires working { IsWorking world.now.system.now world.now.page.now (S.known world.now.sums.now) needs.old }
    requires more { length needs.old.drafts.items < length needs.old.wants.keys }
    requires memo { IsPlaceMemo world.now.system.now memo.old }
    ensures working { OnOk result (IsWorking world.now.system.now world.now.page.now (S.known world.now.sums.now) needs.new) }
    ensures done { OnOk result (length needs.new.drafts.items ≡ suc (length needs.old.drafts.items)) }
    ensures target { needs.new.target ≡ needs.old.target }
    ensures memo { IsPlaceMemo world.now.system.now memo.new }
{
    let next = needs.drafts.len();
    let want = needs.wants.as_slice()[next];
    let glance = glance_at(alloc, needs, world, &want, memo)?;
    let triple = enter(alloc, needs, world.system, glance.choice, glance.below)?;
    let draft = Draft {
        round: glance.round,
        choice: glance.choice,
        triple,
    };
    follow(alloc, needs, world.system, want.spot, &draft)?;
    needs.drafts.push(draft)?;
    Ok(())
}

// The target at the page's root.
fn start(alloc: Global, target: Atom) -> Result<Needs, NoMemory>
    ensures { IfOk result (IsStart target) }
{
    let mut needs = Needs {
        target,
        nodes: IndexSet::new(alloc),
        triples: IndexSet::new(alloc),
        ties: Vec::new(alloc),
        wants: IndexSet::new(alloc),
        drafts: Vec::new(alloc),
    };
    let root = node_number(alloc, &mut needs.nodes, &Path::root(alloc))?;
    want(&mut needs.wants, Spot::Page(root), target)?;
    Ok(needs)
}

/// All that the target needs at the page's root, by a worklist. Nothing where it uses more triples than the limit.
pub(crate) fn needs_of<S: Summaries>(
    alloc: Global,
    world: &World<'_, S>,
    target: Atom,
    limit: u32,
    memo: &mut PlaceMemo,
) -> Result<Option<Needs>, NoMemory>
    requires ready { IsReady S.Summaries world.now }
    requires target { HasAtom world.now.closed.now.labels [] target }
    requires memo { IsPlaceMemo world.now.system.now memo.old }
    ensures needs { IfOk result (λ r. MatchOption r (UsesMore world.now.system.now world.now.page.now target limit) (IsDone world.now.system.now world.now.page.now (S.known world.now.sums.now) target limit)) }
    ensures memo { IsPlaceMemo world.now.system.now memo.new }
{
    let mut needs = start(alloc, target)?;
    'wants: while needs.drafts.len() < needs.wants.len() {
        look(alloc, &mut needs, world, memo)?;
        if needs.triples.len() > limit as usize {
            return Ok(None);
        }
    }
    Ok(Some(needs))
}
