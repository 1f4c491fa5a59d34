//! A number for each node of a tree.
use tp_base::Items;

/// For each node of a tree, in the order of the document, the number of a node, or none, which is a number that no node has. A
/// contract sees the list of the numbers.
pub type Ranks = Items<usize>;
