//! The items of each spot, in their order.
ghost use Rattle.std.specs.Prelude.{◌≡◌, ◌<◌, ◌==◌, [], ℕ, List, length, map, All, slice_get, unwrap_or, IfOk, OnOk};
ghost use Rattle.proof_needs.specs.declared.spots.Want.{Want};
ghost use Rattle.proof_needs.specs.Spots.{paths_in};
ghost use Rattle.proof_needs.specs.Names.{wants_of};
ghost use Rattle.proof_needs.specs.Orders.{IsSortable, AreDealt, steps_in, IsRank, AreRanks, AreSorted, IsSpotOf, AreFrom, IsWithWant, kept};

use crate::needs::Needs;
use crate::spots::Spot;
use indexmap::IndexSet;
use std::alloc::Global;
use tp_base::{Atom, NoMemory};

/// What a want's place in the order goes by: its first round, on the page then the order of the document, and then the atom. The
/// path of an added node is empty.
#[derive(Debug, PartialEq, Eq, PartialOrd, Ord, Drop)]
pub(crate) struct Rank {
    round: u64,
    path: Vec<u32>,
    atom: Atom,
    want: usize,
}

/// Wants, in an order.
#[derive(Drop)]
pub struct Order {
    pub wants: Vec<usize>,
}

/// The wants of the page and those of each triple.
#[derive(Drop)]
pub struct Orders {
    pub page: Order,
    pub triples: Vec<Order>,
}

/// All wants are sorted once, and dealt to their spots in this order. Where first rounds are the same, a comparison costs a walk
/// along the two paths.
pub fn orders_of(alloc: Global, needs: &Needs) -> Result<Orders, NoMemory>
    requires sortable { IsSortable needs.now }
    ensures { IfOk result (AreDealt needs.now) }
{
    let ranks = sorted(alloc, needs)?;
    let orders = dealt(alloc, needs, &ranks)?;
    Ok(orders)
}

// The ranks of all wants, in their order.
fn sorted(alloc: Global, needs: &Needs) -> Result<Vec<Rank>, NoMemory>
    requires whole { length needs.now.drafts.items ≡ length needs.now.wants.keys }
    ensures { IfOk result (λ v. AreSorted needs.now v.items) }
{
    let mut ranks = ranks_of(alloc, needs)?;
    ranks.sort()?;
    Ok(ranks)
}

fn ranks_of(alloc: Global, needs: &Needs) -> Result<Vec<Rank>, NoMemory>
    requires whole { length needs.now.drafts.items ≡ length needs.now.wants.keys }
    ensures { IfOk result (λ v. AreRanks needs.now (length needs.now.wants.keys) v.items) }
{
    let mut ranks = Vec::new(alloc);
    for i in 0..needs.drafts.len() {
        let rank = rank_of(alloc, needs, i)?;
        ranks.push(rank)?;
    }
    Ok(ranks)
}

fn rank_of(alloc: Global, needs: &Needs, want: usize) -> Result<Rank, NoMemory>
    requires looked { want < length needs.now.drafts.items }
    requires wanted { want < length needs.now.wants.keys }
    ensures { IfOk result (IsRank needs.now want) }
{
    let wanted = needs.wants.as_slice()[want];
    let path = steps_at(alloc, &needs.nodes, wanted.spot)?;
    Ok(Rank {
        round: needs.drafts[want].round,
        path,
        atom: wanted.atom,
        want,
    })
}

// The path of a node of the page. Linear in its length.
fn steps_at(alloc: Global, nodes: &IndexSet<Vec<u32>>, spot: Spot) -> Result<Vec<u32>, NoMemory>
    ensures { IfOk result (λ v. v.items ≡ steps_in (paths_in nodes.now.keys) spot) }
{
    match spot {
        Spot::Page(n) => node_steps(alloc, nodes, n),
        Spot::Added(_) => Ok(Vec::new(alloc)),
    }
}

fn node_steps(alloc: Global, nodes: &IndexSet<Vec<u32>>, n: usize) -> Result<Vec<u32>, NoMemory>
    ensures { IfOk result (λ v. v.items ≡ unwrap_or (slice_get (paths_in nodes.now.keys) n) []) }
{
    match nodes.get_index(n) {
        Some(steps) => Ok(Vec::from_slice(alloc, steps)?),
        None => Ok(Vec::new(alloc)),
    }
}

// Each want goes to the order of its spot.
fn dealt(alloc: Global, needs: &Needs, ranks: &[Rank]) -> Result<Orders, NoMemory>
    requires wanted { All (λ r. r.want < length needs.now.wants.keys) ranks.now }
    requires spots { All (λ w. IsSpotOf (length needs.now.triples.keys) w.spot) needs.now.wants.keys }
    ensures { IfOk result (AreFrom needs.now.wants.keys (length needs.now.triples.keys) (map (λ r. r.want) ranks.now)) }
{
    let mut orders = empty(alloc, needs.triples.len())?;
    for rank in ranks {
        let want = rank.want;
        let spot = needs.wants.as_slice()[want].spot;
        deal(&mut orders, spot, want)?;
    }
    Ok(orders)
}

fn empty(alloc: Global, n: usize) -> Result<Orders, NoMemory>
    ensures { IfOk result (λ o. (wants : List Want) → AreFrom wants n [] o) }
{
    let mut triples = Vec::new(alloc);
    for _ in 0..n {
        triples.push(Order {
            wants: Vec::new(alloc),
        })?;
    }
    Ok(Orders {
        page: Order {
            wants: Vec::new(alloc),
        },
        triples,
    })
}

fn deal(orders: &mut Orders, spot: Spot, want: usize) -> Result<(), NoMemory>
    requires spot { IsSpotOf (length orders.old.triples.items) spot }
    ensures { OnOk result (IsWithWant spot want orders.old orders.new) }
{
    match spot {
        Spot::Page(_) => orders.page.wants.push(want)?,
        Spot::Added(n) => deal_to(&mut orders.triples, n, want)?,
    }
    Ok(())
}

fn deal_to(triples: &mut Vec<Order>, n: usize, want: usize) -> Result<(), NoMemory>
    requires { n < length triples.old.items }
    ensures count { length triples.new.items ≡ length triples.old.items }
    ensures dealt { OnOk result ((m : ℕ) → wants_of triples.new.items m ≡ kept (n == m) want (wants_of triples.old.items m)) }
{
    let order = &mut triples[n];
    order.wants.push(want)?;
    Ok(())
}
