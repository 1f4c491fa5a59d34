//! Paths, sets of atoms and trees from short lists.
use std::alloc::Global;
use tp_base::{Atom, ClassSet, NoMemory, Path};
use tree_sem::{Tree, TreeFault};

/// A node below the root: the path of its parent, and its label.
pub type NodeRow = (&'static [u32], &'static [u32]);

/// The path of these child numbers.
pub fn path_of(alloc: Global, numbers: &[u32]) -> Result<Path, NoMemory> {
    let mut at = Path::root(alloc);
    for number in numbers {
        at.push(*number)?;
    }
    Ok(at)
}

/// Whether the path has these child numbers.
pub fn is_path(at: &Path, numbers: &[u32]) -> bool {
    if at.len() != numbers.len() {
        return false;
    }
    for i in 0..at.len() {
        if at.at(i) != numbers[i] {
            return false;
        }
    }
    true
}

/// The set of these atoms.
pub fn set_of(alloc: Global, atoms: &[u32]) -> Result<ClassSet, NoMemory> {
    let mut set = ClassSet::new(alloc);
    for atom in atoms {
        set.add(Atom(*atom))?;
    }
    Ok(set)
}

/// Gives the node at the path one child more, with this label; its number.
pub fn add_child(
    alloc: Global,
    tree: &mut Tree,
    parent: &[u32],
    label: &[u32],
) -> Result<u32, TreeFault> {
    let at = path_of(alloc, parent)?;
    tree.add_child(&at, set_of(alloc, label)?)
}

/// The tree of a root with this label and these nodes, parents first.
pub fn tree_of(alloc: Global, root: &[u32], nodes: &[NodeRow]) -> Result<Tree, TreeFault> {
    let mut tree = Tree::new(alloc, set_of(alloc, root)?)?;
    for (parent, label) in nodes {
        add_child(alloc, &mut tree, parent, label)?;
    }
    Ok(tree)
}
