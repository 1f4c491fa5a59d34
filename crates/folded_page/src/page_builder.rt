//! A builder of trees that takes nodes in document order.
ghost use Rattle.std.specs.Prelude.{◌≡◌, ◌<◌, [], ◌∷◌, ◌++◌, length, get_or, IfOk, IfSome, OnOk};
ghost use Rattle.tree_sem.specs.Nodes.{IsNode};
ghost use Rattle.tree_sem.specs.Trees.{leaf, count_of, length_of, node_at, edit_at, add_child};
ghost use Rattle.node_marks.specs.Marks.{path_at};
ghost use Rattle.folded_page.specs.Built.{IsAddedLast, IsInOrder};

use std::alloc::Global;
use tp_base::{ClassSet, NoMemory};
use tree_sem::{MOST_NODES, Tree, TreeBuilder, TreeFault};

/// A tree that grows at its end: each node comes behind those that were there.
#[derive(Drop)]
pub(crate) struct PageBuilder {
    /// Stands at the last node.
    pub(crate) builder: TreeBuilder,
    /// The numbers of the nodes on the way to the last node, and of itself.
    pub(crate) line: Vec<usize>,
    /// How many nodes there are.
    pub(crate) count: usize,
}

impl PageBuilder {
    /// A tree of one node. Constant.
    pub(crate) fn new(alloc: Global, label: ClassSet) -> Result<PageBuilder, NoMemory>
        ensures tree { IfOk result (λ b. b.builder.tree ≡ leaf label) }
        ensures order { IfOk result (λ b. IsInOrder b.builder b.line.items b.count) }
    {
        let builder = TreeBuilder::new(Tree::new(alloc, label)?);
        let mut line = Vec::new(alloc);
        line.push(0)?;
        Ok(PageBuilder {
            builder,
            line,
            count: 1,
        })
    }

    /// Gives the node of a number one child more, and gives the child's number; nothing where the node is neither the last one
    /// nor above it, or where there are as many nodes as can be. Linear in the levels from the last node up to that one.
    pub(crate) fn add(&mut self, parent: usize, label: ClassSet) -> Result<Option<usize>, NoMemory>
        requires { IsInOrder self.old.builder self.old.line.items self.old.count }
        ensures number { IfOk result (λ o. IfSome o (λ k. k ≡ count_of self.old.builder.tree)) }
        ensures added { IfOk result (λ o. IfSome o (λ k. IsAddedLast self.old.builder.tree self.new.builder.tree (path_at self.old.builder.tree parent) label)) }
        ensures order { IfOk result (λ o. IfSome o (λ k. IsInOrder self.new.builder self.new.line.items self.new.count)) }
    {
        let number = self.count;
        if number >= MOST_NODES as usize {
            return Ok(None);
        }
        let Some(level) = level_of(&self.line, parent) else {
            return Ok(None);
        };
        self.builder.go_up(self.line.len() - 1 - level);
        let step = added(&mut self.builder, label)?;
        go_down(&mut self.builder, step)?;
        self.line.truncate(level + 1);
        self.line.push(number)?;
        self.count = number + 1;
        Ok(Some(number))
    }

    /// The tree. Constant.
    pub(crate) fn finish(self) -> Tree
        ensures { result ≡ self.builder.tree }
    {
        self.builder.finish()
    }
}

// The last place at which the line has this number. Linear in the places behind it.
fn level_of(line: &[usize], number: usize) -> Option<usize>
    ensures { IfSome result (λ k. (k < length line.now) × (get_or line.now k 0 ≡ number)) }
{
    let mut level = line.len();
    'levels: while level > 0 {
        level -= 1;
        if line[level] == number {
            return Some(level);
        }
    }
    None
}

// Gives the current node one child more, and gives the child's number there.
fn added(builder: &mut TreeBuilder, label: ClassSet) -> Result<u32, NoMemory>
    requires { count_of builder.old.tree < MOST_NODES }
    ensures tree { OnOk result (builder.new.tree ≡ edit_at builder.old.at (add_child label) builder.old.tree) }
    ensures at { builder.new.at ≡ builder.old.at }
    ensures number { IfOk result (λ k. IfSome (node_at builder.old.at builder.old.tree) (λ n. k ≡ length_of n.below)) }
{
    match builder.add_child(label) {
        Ok(step) => Ok(step),
        Err(TreeFault::Memory) => Err(NoMemory),
        Err(_) => unreachable!(),
    }
}

// Goes down to the child of a number.
fn go_down(builder: &mut TreeBuilder, step: u32) -> Result<(), NoMemory>
    requires { IsNode builder.old.tree (builder.old.at ++ step ∷ []) }
    ensures at { OnOk result (builder.new.at ≡ builder.old.at ++ step ∷ []) }
    ensures tree { builder.new.tree ≡ builder.old.tree }
{
    match builder.go_down(step) {
        Ok(()) => Ok(()),
        Err(TreeFault::Memory) => Err(NoMemory),
        Err(_) => unreachable!(),
    }
}
