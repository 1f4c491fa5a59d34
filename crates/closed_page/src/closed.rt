//! A closed page, ready for queries.
ghost use Rattle.std.specs.Prelude.{◌≡◌, ◌++◌, ◌∷◌, ℕ, List, [], find, option_copied, unwrap_or, IfOk};
ghost use Rattle.std.specs.List.{range_with_len};
ghost use Rattle.tree_sem.specs.Trees.{label_at, children_at};
ghost use Rattle.closed_page.specs.ClosedPages.{HasNoOthers, round_of};
ghost use Rattle.closed_page.specs.FirstChildren.{came_by};
ghost use Rattle.closed_page.specs.Firsts.{AreOfNodes};
ghost use Rattle.closed_page.specs.Views.{firsts_of};

use crate::first_rounds::FirstRounds;
use crate::page_labels::PageLabels;
use crate::shared_set::SharedSet;
use std::alloc::Global;
use std::marker::Model;
use tp_base::{Atom, ClassSet, NoMemory, Path};

/// The closed label of each node of a page, and the first round of each of its atoms. No tree is kept. A contract sees the page
/// as a tree with closed labels, and the first rounds.
#[derive(Drop)]
pub struct Closed {
    own: Vec<SharedSet>,
    firsts: FirstRounds,
}

impl Model for Closed {
    ghost use Rattle.std.specs.Prelude.{List, ℕ, length, Contains, IsSome};
    ghost use Rattle.tree_sem.specs.Trees.{node_at};
    ghost use Rattle.closed_page.specs.ClosedPages.{ClosedPage, closed_code, HasNoOthers};
    ghost use Rattle.closed_page.specs.Labelled.{AreAllLabels, HaveLabels};
    ghost use Rattle.closed_page.specs.Relabelled.{label_by, relabelled, shape_of};

    ghost Value = { ClosedPage };

    ghost coded = { closed_code };

    ghost view = { λ c. record { labels = relabelled (label_by c.firsts.nodes c.own.items) (shape_of c.firsts.nodes); firsts = c.firsts.firsts } };

    ghost invariant = { λ c. HasNoOthers (relabelled (label_by c.firsts.nodes c.own.items) (shape_of c.firsts.nodes)) c.firsts.firsts × HaveLabels (relabelled (label_by c.firsts.nodes c.own.items) (shape_of c.firsts.nodes)) c.firsts.nodes c.own.items };
}

impl Closed {
    /// Makes the closed page from a page whose labels are closed. Linear in the atoms of its notes and the largest atom, plus
    /// one sort of the notes. First rounds take memory for each run of siblings that got an atom in one round.
    pub fn new(alloc: Global, page: PageLabels) -> Result<Closed, NoMemory>
        requires nodes { AreOfNodes page.nodes page.firsts }
        requires others { HasNoOthers page.labels (firsts_of page.firsts) }
        ensures labels { IfOk result (λ c. c.labels ≡ page.labels) }
        ensures rounds { IfOk result (λ c. (v : List ℕ) (a : ℕ) → round_of c.firsts v a ≡ round_of (firsts_of page.firsts) v a) }
    {
        let parts = page.into_parts(alloc)?;
        Ok(Closed {
            own: parts.own,
            firsts: parts.firsts,
        })
    }

    /// The closed label of a node. Linear in the path's length where the node is there.
    pub fn label(&self, at: &Path) -> Option<&ClassSet>
        ensures { option_copied result ≡ label_at at.now self.now.labels }
    {
        match self.firsts.number_of(at) {
            Some(number) => Some(self.own[number].set()),
            None => None,
        }
    }

    /// The first round in which a node has the atom. Linear in the path's length, and logarithmic in
    /// the runs of the atom.
    pub fn first_round(&self, at: &Path, atom: Atom) -> Option<u64>
        ensures { result ≡ round_of self.now.firsts at.now atom }
    {
        self.firsts.round(at, atom)
    }

    /// The first child that has the atom by this round, by its index. Linear in the path's length and logarithmic in the runs
    /// of the atom. Linear, too, in the runs of the children before it, which got the atom later.
    pub fn first_child(&self, at: &Path, atom: Atom, round: u64) -> Option<u32>
        ensures { result ≡ find (λ n. came_by round (round_of self.now.firsts (at.now ++ n ∷ []) atom))
            (range_with_len 0 (unwrap_or (children_at at.now self.now.labels) 0)) }
    {
        self.firsts.first_child(at, atom, round)
    }
}
