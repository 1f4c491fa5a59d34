//! The kinds of the nodes of forests.
ghost use Rattle.std.specs.Prelude.{◌≡◌, ◌++◌, option_map, unwrap_or, IfOk, OnOk};
ghost use Rattle.std.specs.List.{flat_map};
ghost use Rattle.tree_sem.specs.Paths.{parent_of, last_number};
ghost use Rattle.guard_simplify.specs.ForestRules.{child_count, above_among};
ghost use Rattle.guard_simplify.specs.Forests.{nodes_in, label_by, kind_by, kinds_by};

use crate::forest_nodes::RuleForest;
use crate::node_numbers::NodeNumbers;
use simple_core::Kind;
use std::alloc::Global;
use tp_base::{ClassSet, NoMemory, Path};

// The number of the node at the path among its siblings; 0 at the root.
fn number_at(at: &Path) -> u32
    ensures { result ≡ last_number at.now }
{
    if at.len() == 0 {
        return 0;
    }
    at.at(at.len() - 1)
}

impl RuleForest {
    // The kind above that of the node at the path; a top node has none.
    fn kind_above(&self, at: &Path, numbers: &NodeNumbers) -> Result<Option<u32>, NoMemory>
        ensures { IfOk result (λ k. k ≡ above_among (nodes_in numbers.now) self.now.rule at.now) }
    {
        if at.len() < 2 {
            return Ok(None);
        }
        let mut above = at.copy()?;
        above.pop();
        let node = self.node(&above)?;
        Ok(Some(numbers.kind(&node)))
    }

    // How many children the parent has of the node at the path; the root has no parent.
    fn siblings_at(&self, at: &Path) -> Result<u32, NoMemory>
        ensures { IfOk result (λ n. n ≡ unwrap_or (option_map (child_count self.now.tree) (parent_of at.now)) 0) }
    {
        let mut above = at.copy()?;
        match above.pop() {
            Some(_) => Ok(self.children(&above)),
            None => Ok(0),
        }
    }

    // The label of the node at the path, with its own atom where it has children.
    fn label_at(&self, at: &Path, numbers: &NodeNumbers) -> Result<ClassSet, NoMemory>
        ensures { IfOk result (λ l. l ≡ label_by numbers.now self.now at.now) }
    {
        let mut label = match self.tree.label(at) {
            Some(found) => found.copy()?,
            None => ClassSet::new(*self.paths.allocator()),
        };
        if self.children(at) > 0 {
            let node = self.node(at)?;
            label.add(numbers.own_atom(&node))?;
        }
        Ok(label)
    }

    // The kind of the node at the path.
    fn kind_at(&self, at: &Path, numbers: &NodeNumbers) -> Result<Kind, NoMemory>
        ensures { IfOk result (λ k. k ≡ kind_by numbers.now self.now at.now) }
    {
        Ok(Kind {
            label: self.label_at(at, numbers)?,
            stmt: self.rule,
            above: self.kind_above(at, numbers)?,
            number: number_at(at),
            siblings: self.siblings_at(at)?,
            beside: self.beside,
        })
    }

    // The kinds of the forest's nodes, behind those that are there.
    fn add_kinds(&self, numbers: &NodeNumbers, kinds: &mut Vec<Kind>) -> Result<(), NoMemory>
        ensures { OnOk result (kinds.new.items ≡ kinds.old.items ++ kinds_by numbers.now self.now) }
    {
        'paths: for at in &self.paths {
            kinds.push(self.kind_at(at, numbers)?)?;
        }
        Ok(())
    }
}

/// The kinds of the nodes of all forests, in the order of the rules and of the documents. Linear in the forests, but
/// for the look-ups.
pub(crate) fn all_kinds(
    alloc: Global,
    forests: &[RuleForest],
    numbers: &NodeNumbers,
) -> Result<Vec<Kind>, NoMemory>
    ensures { IfOk result (λ v. v.items ≡ flat_map (kinds_by numbers.now) forests.now) }
{
    let mut kinds = Vec::new(alloc);
    'forests: for forest in forests {
        forest.add_kinds(numbers, &mut kinds)?;
    }
    Ok(kinds)
}
