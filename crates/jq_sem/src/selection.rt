//! Which nodes a statement selects.
ghost use Rattle.std.specs.Prelude.{◌↔◌, IsTrue, IsSome, IfOk};
ghost use Rattle.tree_sem.specs.Trees.{node_at};
ghost use Rattle.jq_sem.specs.Statements.{Selected};
ghost use Rattle.jq_stmts.specs.Views.{statement_of};

use crate::evaluation::selected;
use jq_stmts::Stmt;
use node_marks::NumberedTree;
use std::alloc::Global;
use tp_base::{NoMemory, Path};
use tree_sem::Tree;

/// Whether the statement selects the node at the path; false where no node is there. Each chain is evaluated on sets of
/// nodes, from the outermost handler's root on. The cost is a walk over the tree, and then a few steps for each node and each
/// compound of each call of the handlers and the chain.
pub fn selects(alloc: Global, s: &Stmt, tree: &Tree, at: &Path) -> Result<bool, NoMemory>
    ensures selected { IfOk result (λ yes. IsTrue yes ↔ Selected tree.now (statement_of s.now) at.now) }
    ensures node { IfOk result (λ yes. IsTrue yes → IsSome (node_at at.now tree.now)) }
{
    let numbered = NumberedTree::new(alloc, tree)?;
    let marks = selected(alloc, &numbered, s)?;
    Ok(numbered.has(&marks, at))
}
