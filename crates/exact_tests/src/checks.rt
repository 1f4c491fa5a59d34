//! Whether answers may be settled: steps never make too many nodes, and the proof is valid and unfolded.
ghost use Rattle.std.specs.Prelude.{◌≤◌, All, IsTrue};
ghost use Rattle.jq_stmts.specs.SharpViews.{exact_of, exacts_of};
ghost use Rattle.jq_exact.specs.Room.{HasRoom, added_by};
ghost use Rattle.proof_core.specs.Worlds.{HasFewSiblings};

use jq_stmts::ExactStmt;
use simple_core::{Kind, MOST_KINDS};
use tree_sem::{Action, MOST_NODES, Tree};

fn adds_nothing(action: &Action) -> bool
    ensures { IsTrue result → added_by action.now ≤ 0 }
{
    matches!(action, Action::Classes(_))
}

fn is_small(s: &ExactStmt) -> bool
    ensures { IsTrue result → added_by (exact_of s.now).action ≤ 0 }
{
    adds_nothing(&s.wide.action)
}

fn are_small(stmts: &[ExactStmt]) -> bool
    ensures { IsTrue result → All (λ s. added_by s.action ≤ 0) (exacts_of stmts.now) }
{
    let mut rest = stmts;
    'statements: while let Some((s, later)) = rest.split_first() {
        if !is_small(s) {
            return false;
        }
        rest = later;
    }
    true
}

/// Whether no statement adds a node.
pub fn has_room(page: &Tree, stmts: &[ExactStmt]) -> bool
    ensures { IsTrue result → HasRoom page.now (exacts_of stmts.now) }
{
    page.count() <= MOST_NODES && are_small(stmts)
}

/// Whether each kind is one of its siblings, and these are few.
pub fn are_few(kinds: &[Kind]) -> bool
    ensures { IsTrue result → HasFewSiblings kinds.now }
{
    kinds.iter().all(|kind| kind.number < kind.siblings && kind.siblings <= MOST_KINDS)
}
