//! Laws: larger trees keep matches and selections; losses and whole runs don't change which selectors a script reaches.
ghost use Rattle.sel_core.specs.Selectors.{Matches};
ghost use Rattle.sel_text.specs.Views.{selector_of};
ghost use Rattle.jq_sem.specs.Events.{IsLoss, AreLegalEvents, end_of_events, ReachesWithLosses, events_of};
ghost use Rattle.jq_sem.specs.Laws.{IsKept};
ghost use Rattle.jq_sem.specs.Reachability.{end_of, AreLegal, Reaches};
ghost use Rattle.jq_sem.specs.WholeRuns.{AreRuns, ReachesByRuns, runs_of};
ghost use Rattle.tree_sem.specs.Embedding.{IsWithin};
ghost use Rattle.tree_sem.specs.Trees.{LabelTree};
ghost use Rattle.tree_sem.specs.declared.actions.Step as step;
ghost use Rattle.jq_sem.specs.Statements.{Selected};
ghost use Rattle.jq_stmts.specs.Views.{statement_of, statements_of};
ghost use Rattle.std.specs.Prelude.{◌≡◌, ◌↔◌, ℕ, List, All};

use jq_stmts::Stmt;
use sel_text::Selector;
use tree_sem::{Event, Step, Tree};

/// A node that a selector matches has an image in each larger tree, and the selector matches the image.
#[tactic(auto, using(crate::proofs::KeptLemmas::match_kept))]
pub fn match_is_kept(tree: &Tree, larger: &Tree, s: &Selector)
    ensures { IsKept tree.now larger.now (λ v. Matches tree.now v (selector_of s.now)) (λ v. Matches larger.now v (selector_of s.now)) }
{}

/// A node that a statement selects has an image in each larger tree, and the statement selects the image.
#[tactic(auto, using(crate::proofs::KeptLemmas::selection_kept))]
pub fn selection_is_kept(tree: &Tree, larger: &Tree, s: &Stmt)
    ensures { IsKept tree.now larger.now (Selected tree.now (statement_of s.now)) (Selected larger.now (statement_of s.now)) }
{}

/// A script's steps only grow a tree. A statement still selects each node that it selected before them.
#[tactic(auto, using(crate::proofs::KeptLemmas::steps_keep))]
pub fn steps_keep_selection(page: &Tree, stmts: &[Stmt], steps: &[Step], s: &Stmt)
    ensures { (v : List ℕ) → Selected page.now (statement_of s.now) v → Selected (end_of page.now (statements_of stmts.now) steps.now) (statement_of s.now) v }
{}

/// Steps are events without losses. They are legal events exactly where they are legal steps, and they lead to the same tree.
pub fn steps_are_events(page: &Tree, stmts: &[Stmt], steps: &[Step])
    ensures no_losses { All (λ e. ¬ IsLoss e) (events_of steps.now) }
    ensures legal { AreLegalEvents page.now (statements_of stmts.now) (events_of steps.now) ↔ AreLegal page.now (statements_of stmts.now) steps.now }
    ensures end { end_of_events page.now (statements_of stmts.now) (events_of steps.now) ≡ end_of page.now (statements_of stmts.now) steps.now }
{}

/// Events without losses are steps.
pub fn events_are_steps(events: &[Event])
    requires no_losses { All (λ e. ¬ IsLoss e) events.now }
    ensures { (steps : List step.Step) × (events.now ≡ events_of steps) }
{}

/// A script with losses of classes and subtrees between its steps reaches the same selectors as without them.
pub fn losses_reach_nothing_more(page: &Tree, stmts: &[Stmt], s: &Selector)
    ensures { ReachesWithLosses page.now (statements_of stmts.now) (selector_of s.now) ↔ Reaches page.now (statements_of stmts.now) (selector_of s.now) }
{}

/// Whole runs reach the same selectors as steps.
pub fn runs_reach_the_same(page: &Tree, stmts: &[Stmt], s: &Selector)
    ensures { ReachesByRuns page.now (statements_of stmts.now) (selector_of s.now) ↔ Reaches page.now (statements_of stmts.now) (selector_of s.now) }
{}

/// For whole runs there is a list of legal steps that ends in the same tree.
pub fn runs_are_steps(page: &Tree, stmts: &[Stmt], runs: &[u32], after: &Tree)
    ensures { AreRuns page.now (statements_of stmts.now) runs.now after.now
        → (steps : List step.Step) × AreLegal page.now (statements_of stmts.now) steps × (end_of page.now (statements_of stmts.now) steps ≡ after.now) }
{}

/// The tree after legal steps embeds into the tree after the whole runs of their statements.
pub fn runs_make_no_less(page: &Tree, stmts: &[Stmt], steps: &[Step])
    ensures { AreLegal page.now (statements_of stmts.now) steps.now
        → (u : LabelTree) × AreRuns page.now (statements_of stmts.now) (runs_of steps.now) u × IsWithin (end_of page.now (statements_of stmts.now) steps.now) u }
{}
