//! The nodes of items, numbered.
ghost use Rattle.std.specs.Prelude.{◌≡◌, IfOk};
ghost use Rattle.proof_check.specs.Nodes.{number_in, HasAll};

use crate::proofs::PageItem;
use indexmap::IndexSet;
use std::alloc::Global;
use std::marker::Model;
use tp_base::{NoMemory, Path};

/// The paths of nodes, each with its number. A contract sees the list of them.
#[derive(Drop)]
pub struct Nodes {
    paths: IndexSet<Vec<u32>>,
}

impl Model for Nodes {
    ghost use Rattle.proof_check.specs.NodePaths.{NodePaths};

    ghost Value = { NodePaths };

    ghost view = { λ n. n.paths.keys };
}

impl Nodes {
    /// The nodes of the items. Linear in the items and the lengths of their paths.
    pub fn of(alloc: Global, items: &[PageItem]) -> Result<Nodes, NoMemory>
        ensures { IfOk result (λ nodes. HasAll nodes items.now) }
    {
        let mut paths = IndexSet::new(alloc);
        for i in items {
            paths.insert(steps_of(alloc, &i.at)?)?;
        }
        Ok(Nodes { paths })
    }

    /// The number of the node at the path. Linear in the path's length, on average.
    pub fn get(&self, path: &[u32]) -> Option<usize>
        ensures { result ≡ number_in self.now path.now }
    {
        self.paths.get_index_of(path)
    }
}

/// The steps of a path.
pub fn steps_of(alloc: Global, path: &Path) -> Result<Vec<u32>, NoMemory>
    ensures { IfOk result (λ steps. steps.items ≡ path.now) }
{
    let mut steps = Vec::new(alloc);
    for i in 0..path.len() {
        steps.push(path.at(i))?;
    }
    Ok(steps)
}
