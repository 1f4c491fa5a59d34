//! The next node in document order.
ghost use Rattle.std.specs.Prelude.{◌≡◌, ℕ, [], ◌∷◌, take, IsSome, IfOk, OnOk, OnErr, MatchBool};
ghost use Rattle.tree_sem.specs.Trees.{node_at};
ghost use Rattle.tree_sem.specs.Order.{rest_of};

use crate::label_tree::Tree;
use tp_base::{NoMemory, Path};

/// Goes on to the next node in the order of the document, and says whether there was one. A walk over a
/// whole tree begins at the root's path, and ends there again; it costs at most two look-ups by a path for
/// each node.
pub fn go_on(tree: &Tree, at: &mut Path) -> Result<bool, NoMemory>
    requires { IsSome (node_at at.old tree.now) }
    ensures next { IfOk result (λ moved. MatchBool moved
        (rest_of at.old tree.now ≡ at.new ∷ rest_of at.new tree.now)
        ((rest_of at.old tree.now ≡ []) × (at.new ≡ []))) }
    ensures node { OnOk result (IsSome (node_at at.new tree.now)) }
    ensures err { OnErr result ((len : ℕ) × (at.new ≡ take len at.old)) }
{
    if tree.children(at).unwrap_or(0) > 0 {
        at.push(0)?;
        return Ok(true);
    }
    while let Some(step) = at.pop() {
        let children = tree.children(at).unwrap_or(0);
        if step + 1 < children {
            at.push(step + 1)?;
            return Ok(true);
        }
    }
    Ok(false)
}
