//! The worklist of a proof: the premises of each reason are put on it, each once.
ghost use Rattle.std.specs.Prelude.{◌≡◌, ◌<◌, ◌++◌, ◌∷◌, [], ℕ, List, Option, Some, length, slice_get, unwrap_or, option_map, IsSomeAnd, OnOk, OnErr};
ghost use Rattle.tree_sem.specs.Paths.{parent_of};
ghost use Rattle.proof_needs.specs.Choices.{needs_of};
ghost use Rattle.proof_needs.specs.Sets.{IsWith, IsWithSome};
ghost use Rattle.proof_needs.specs.Spots.{paths_in};
ghost use Rattle.proof_needs.specs.Wants.{IsOfEach};
ghost use Rattle.proof_needs.specs.Ties.{TieAt, IsTieIndex};
ghost use Rattle.proof_needs.specs.declared.needs.Tie.{Tie};
ghost use Rattle.proof_needs.specs.Following.{IsAtNode, IsAbove, IsUsed, FollowsUp, FollowsDown, Follows, IsAboveSome, IsUsedSome, IsParentOf, IsChildOf, FollowsUpSome, FollowsDownSome, FollowsSome};
ghost use Rattle.proof_needs.specs.Premises.{place_of, HasPlace, triple_named, ArePlaced, WantsPremises};

use crate::spots::{Spot, TripleKey, Want, node_number, path_of};
use crate::wants::{want, want_at_each, want_each};
use indexmap::IndexSet;
use simple_core::{Link, Spawn, System};
use std::alloc::Global;
use tp_base::{Atom, ClassSet, NoMemory, Path};

/// Why a place has an atom: from the start, or by rules of these numbers.
#[derive(Clone, Copy, Debug, PartialEq, Eq)]
pub enum Choice {
    Start,
    Local(u64),
    Up(u64),
    Real(u64, u32),
    Spawn(u64, u64),
}

/// What an added node needs of its parent, and the spots that have the node as a child.
#[derive(Drop)]
pub struct Tie {
    pub above: ClassSet,
    pub users: Vec<Spot>,
}

/// An atom that was looked at: its first round, the reason that is chosen for it, and the triple of the child that this adds.
#[derive(Clone, Copy, Debug, PartialEq, Eq)]
pub struct Draft {
    pub round: u64,
    pub choice: Choice,
    pub triple: Option<usize>,
}

/// The atoms that are needed, in the order in which they were wanted (`wants`), and for each of the first of them what was looked at
/// (`drafts`). `nodes` are the page's nodes that have some; `triples` are the children that are added, with a tie for each at the same
/// place of `ties`.
#[derive(Drop)]
pub struct Needs {
    pub target: Atom,
    pub nodes: IndexSet<Vec<u32>>,
    pub triples: IndexSet<TripleKey>,
    pub ties: Vec<Tie>,
    pub wants: IndexSet<Want>,
    pub drafts: Vec<Draft>,
}

/// Wants the premises of a reason at the spot, where a spawn has its number. After a refusal some of them may be wanted, and nothing that was there is lost. It costs a step for each atom that is wanted, on average, the path of a page's node,
/// and where an added node needs one atom more of its parent, a look at those that it needs already.
pub fn follow(
    alloc: Global,
    needs: &mut Needs,
    system: &System,
    spot: Spot,
    draft: &Draft,
) -> Result<(), NoMemory>
    requires ties { IsTieIndex (length needs.old.ties.items) spot draft.now.choice draft.now.triple }
    ensures follows { OnOk result (Follows (paths_in needs.old.nodes.keys) (paths_in needs.new.nodes.keys) needs.old.ties.items needs.new.ties.items needs.old.wants.keys needs.new.wants.keys
        system.now spot draft.now.choice draft.now.triple) }
    ensures err { OnErr result (FollowsSome (paths_in needs.old.nodes.keys) (paths_in needs.new.nodes.keys) needs.old.ties.items needs.new.ties.items needs.old.wants.keys needs.new.wants.keys
        system.now spot draft.now.choice draft.now.triple) }
    ensures premises { ArePlaced needs.old → HasPlace needs.old spot → OnOk result (WantsPremises system.now (place_of needs.old spot) draft.now.choice (triple_named needs.old draft.now.triple) needs.old needs.new) }
    ensures triples { needs.new.triples ≡ needs.old.triples }
    ensures drafts { needs.new.drafts ≡ needs.old.drafts }
    ensures target { needs.new.target ≡ needs.old.target }
{
    match draft.choice {
        Choice::Start => Ok(()),
        Choice::Local(l) => want_needs(&mut needs.wants, system, spot, l),
        Choice::Up(l) => follow_up(alloc, needs, spot, from_of(system.up.items(), l as usize)),
        Choice::Real(l, n) => follow_down(
            alloc,
            needs,
            spot,
            n,
            from_of(system.down.items(), l as usize),
        ),
        Choice::Spawn(l, c) => follow_spawn(
            needs,
            spot,
            draft.triple,
            from_of(system.down.items(), l as usize),
            needs_at(system.child.items(), c),
        ),
    }
}

/// The left side of a link. Constant.
pub fn from_of(links: &[Link], link: usize) -> Atom
    ensures { result ≡ unwrap_or (option_map (λ l. l.from) (slice_get links.now link)) 0 }
{
    match links.get(link) {
        Some(link) => link.from,
        None => Atom(0),
    }
}

/// The atom that a spawn rule needs.
pub(crate) fn needs_at(spawns: &[Spawn], spawn: u64) -> Atom
    ensures { result ≡ unwrap_or (option_map (λ c. c.needs) (slice_get spawns.now spawn)) 0 }
{
    match spawns.get(spawn as usize) {
        Some(spawn) => spawn.needs,
        None => Atom(0),
    }
}

fn want_needs(
    wants: &mut IndexSet<Want>,
    system: &System,
    spot: Spot,
    rule: u64,
) -> Result<(), NoMemory>
    ensures ok { OnOk result (IsWith wants.old.keys (IsOfEach spot (needs_of system.now rule)) wants.new.keys) }
    ensures err { OnErr result (IsWithSome wants.old.keys (IsOfEach spot (needs_of system.now rule)) wants.new.keys) }
{
    match system.local.items().get(rule as usize) {
        Some(rule) => want_each(wants, spot, &rule.needs),
        None => Ok(()),
    }
}

// The atom is needed at the parent: of a page's node there, and of an added node at each spot that has it as a child.
fn follow_up(alloc: Global, needs: &mut Needs, spot: Spot, from: Atom) -> Result<(), NoMemory>
    requires tie { TieAt (length needs.old.ties.items) spot }
    ensures follows { OnOk result (FollowsUp (paths_in needs.old.nodes.keys) (paths_in needs.new.nodes.keys) needs.old.ties.items needs.new.ties.items needs.old.wants.keys needs.new.wants.keys spot from) }
    ensures err { OnErr result (FollowsUpSome (paths_in needs.old.nodes.keys) (paths_in needs.new.nodes.keys) needs.old.ties.items needs.new.ties.items needs.old.wants.keys needs.new.wants.keys spot from) }
    ensures triples { needs.new.triples ≡ needs.old.triples }
    ensures drafts { needs.new.drafts ≡ needs.old.drafts }
    ensures target { needs.new.target ≡ needs.old.target }
{
    match spot {
        Spot::Page(n) => want_parent(alloc, &mut needs.nodes, &mut needs.wants, n, from),
        Spot::Added(n) => want_above(&mut needs.ties, &mut needs.wants, n, from),
    }
}

fn want_parent(
    alloc: Global,
    nodes: &mut IndexSet<Vec<u32>>,
    wants: &mut IndexSet<Want>,
    n: usize,
    from: Atom,
) -> Result<(), NoMemory>
    ensures parent { OnOk result ((v p : List ℕ) → slice_get (paths_in nodes.old.keys) n ≡ Some v → parent_of v ≡ Some p
        → IsAtNode p from (paths_in nodes.old.keys) (paths_in nodes.new.keys) wants.old.keys wants.new.keys) }
    ensures root { OnOk result (slice_get (paths_in nodes.old.keys) n ≡ Some [] → (nodes.new ≡ nodes.old) × (wants.new ≡ wants.old)) }
    ensures err { OnErr result ((wants.new.keys ≡ wants.old.keys) × IsWithSome (paths_in nodes.old.keys) (IsParentOf (paths_in nodes.old.keys) n) (paths_in nodes.new.keys)) }
{
    let mut above = path_of(alloc, nodes, n)?;
    if above.pop().is_none() {
        return Ok(());
    }
    want_at(alloc, nodes, wants, &above, from)?;
    Ok(())
}

// The atom is needed at the node.
fn want_at(
    alloc: Global,
    nodes: &mut IndexSet<Vec<u32>>,
    wants: &mut IndexSet<Want>,
    at: &Path,
    from: Atom,
) -> Result<(), NoMemory>
    ensures ok { OnOk result (IsAtNode at.now from (paths_in nodes.old.keys) (paths_in nodes.new.keys) wants.old.keys wants.new.keys) }
    ensures err { OnErr result ((wants.new.keys ≡ wants.old.keys) × IsWithSome (paths_in nodes.old.keys) (λ v. v ≡ at.now) (paths_in nodes.new.keys)) }
{
    let number = node_number(alloc, nodes, at)?;
    want(wants, Spot::Page(number), from)?;
    Ok(())
}

fn want_above(
    ties: &mut Vec<Tie>,
    wants: &mut IndexSet<Want>,
    n: usize,
    from: Atom,
) -> Result<(), NoMemory>
    requires { n < length ties.old.items }
    ensures ok { OnOk result ((tie : Tie) → slice_get ties.old.items n ≡ Some tie → IsAbove n from tie ties.old.items ties.new.items wants.old.keys wants.new.keys) }
    ensures err { OnErr result ((tie : Tie) → slice_get ties.old.items n ≡ Some tie → IsAboveSome n from tie ties.old.items ties.new.items wants.old.keys wants.new.keys) }
{
    let tie = &mut ties[n];
    tie.above.add(from)?;
    want_at_each(wants, &tie.users, from)?;
    Ok(())
}

fn follow_down(
    alloc: Global,
    needs: &mut Needs,
    spot: Spot,
    child: u32,
    from: Atom,
) -> Result<(), NoMemory>
    ensures follows { OnOk result (FollowsDown (paths_in needs.old.nodes.keys) (paths_in needs.new.nodes.keys) needs.old.ties.items needs.new.ties.items needs.old.wants.keys needs.new.wants.keys spot child from) }
    ensures err { OnErr result (FollowsDownSome (paths_in needs.old.nodes.keys) (paths_in needs.new.nodes.keys) needs.old.ties.items needs.new.ties.items needs.old.wants.keys needs.new.wants.keys spot child) }
    ensures triples { needs.new.triples ≡ needs.old.triples }
    ensures drafts { needs.new.drafts ≡ needs.old.drafts }
    ensures target { needs.new.target ≡ needs.old.target }
{
    match spot {
        Spot::Page(n) => want_child(alloc, &mut needs.nodes, &mut needs.wants, n, child, from),
        Spot::Added(_) => Ok(()),
    }
}

fn want_child(
    alloc: Global,
    nodes: &mut IndexSet<Vec<u32>>,
    wants: &mut IndexSet<Want>,
    n: usize,
    child: u32,
    from: Atom,
) -> Result<(), NoMemory>
    ensures ok { OnOk result ((v : List ℕ) → slice_get (paths_in nodes.old.keys) n ≡ Some v
        → IsAtNode (v ++ child ∷ []) from (paths_in nodes.old.keys) (paths_in nodes.new.keys) wants.old.keys wants.new.keys) }
    ensures err { OnErr result ((wants.new.keys ≡ wants.old.keys) × IsWithSome (paths_in nodes.old.keys) (IsChildOf (paths_in nodes.old.keys) n child) (paths_in nodes.new.keys)) }
{
    let mut at = path_of(alloc, nodes, n)?;
    at.push(child)?;
    want_at(alloc, nodes, wants, &at, from)?;
    Ok(())
}

// The spot has the node of the triple as a child.
fn follow_spawn(
    needs: &mut Needs,
    spot: Spot,
    triple: Option<usize>,
    from: Atom,
    spawner: Atom,
) -> Result<(), NoMemory>
    requires tie { IsSomeAnd triple (λ n. n < length needs.old.ties.items) }
    ensures nodes { needs.new.nodes ≡ needs.old.nodes }
    ensures follows { OnOk result ((n : ℕ) (tie : Tie) → triple ≡ Some n → slice_get needs.old.ties.items n ≡ Some tie
        → IsUsed n from spawner spot tie needs.old.ties.items needs.new.ties.items needs.old.wants.keys needs.new.wants.keys) }
    ensures err { OnErr result ((n : ℕ) (tie : Tie) → triple ≡ Some n → slice_get needs.old.ties.items n ≡ Some tie
        → IsUsedSome n from spawner spot tie needs.old.ties.items needs.new.ties.items needs.old.wants.keys needs.new.wants.keys) }
    ensures triples { needs.new.triples ≡ needs.old.triples }
    ensures drafts { needs.new.drafts ≡ needs.old.drafts }
    ensures target { needs.new.target ≡ needs.old.target }
{
    let Some(n) = triple else { unreachable!() };
    let spawner = Want {
        spot,
        atom: spawner,
    };
    want_added(&mut needs.ties, &mut needs.wants, n, from, spawner)
}

// The atom is needed at the added node, which comes below a spot by the atom that spawns it there.
fn want_added(
    ties: &mut Vec<Tie>,
    wants: &mut IndexSet<Want>,
    n: usize,
    from: Atom,
    spawner: Want,
) -> Result<(), NoMemory>
    requires { n < length ties.old.items }
    ensures ok { OnOk result ((tie : Tie) → slice_get ties.old.items n ≡ Some tie → IsUsed n from spawner.atom spawner.spot tie ties.old.items ties.new.items wants.old.keys wants.new.keys) }
    ensures err { OnErr result ((tie : Tie) → slice_get ties.old.items n ≡ Some tie → IsUsedSome n from spawner.atom spawner.spot tie ties.old.items ties.new.items wants.old.keys wants.new.keys) }
{
    let tie = &mut ties[n];
    tie.users.push(spawner.spot)?;
    want(wants, spawner.spot, spawner.atom)?;
    want(wants, Spot::Added(n), from)?;
    want_each(wants, spawner.spot, &tie.above)?;
    Ok(())
}
