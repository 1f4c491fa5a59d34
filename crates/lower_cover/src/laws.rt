//! Laws: edits of a page, within what statements on all nodes give.
ghost use Rattle.std.specs.Prelude.{ℕ, List, Contains};
ghost use Rattle.tree_sem.specs.Actions.{add_classes};
ghost use Rattle.tree_sem.specs.Embedding.{IsEmbedding};
ghost use Rattle.tree_sem.specs.Nodes.{IsNode};
ghost use Rattle.tree_sem.specs.Trees.{LabelTree, edit_at};
ghost use Rattle.tree_sem.specs.declared.actions.Event as event;
ghost use Rattle.tree_sem.specs.declared.actions.Step as step;
ghost use Rattle.sel_core.specs.Selectors.{Matches};
ghost use Rattle.sel_text.specs.Views.{selector_of};
ghost use Rattle.jq_sem.specs.Events.{AreLegalEvents, end_of_events, ReachesWithLosses};
ghost use Rattle.jq_sem.specs.Reachability.{end_of, AreLegal, Reaches};
ghost use Rattle.jq_stmts.specs.Views.{statement_of, statements_of};
ghost use Rattle.lower_cover.specs.Covering.{AreCovered, AreGiven, IsAllowedTree};
ghost use Rattle.lower_cover.specs.Edits.{Edits, ReachesByEdits, insert_child};
ghost use Rattle.lower_cover.specs.Outputs.{AsksOnly, IsOutput, IsStar, SelectsAll};

use jq_stmts::Stmt;
use sel_text::Selector;
use tp_base::ClassSet;
use tree_sem::Tree;

/// A statement on `$('*')` outside all handlers selects each node of each tree.
pub fn star_selects_all(s: &Stmt)
    requires star { IsStar (statement_of s.now) }
    ensures { SelectsAll (statement_of s.now) }
{}

/// Where a page becomes another tree by edits, that tree embeds into one that legal steps make of the page, up to the atoms
/// that are asked for.
pub fn edits_embed_into_steps(page: &Tree, stmts: &[Stmt], asked: &ClassSet)
    ensures { (t : LabelTree) → Edits asked.now (statements_of stmts.now) page.now t
        → (steps : List step.Step) × AreLegal page.now (statements_of stmts.now) steps
        × (image : List ℕ → List ℕ) × IsEmbedding (Contains asked.now) t (end_of page.now (statements_of stmts.now) steps) image }
{}

/// A selector that no legal steps reach matches no node of any tree that edits make of the page.
pub fn edits_reach_nothing_more(page: &Tree, stmts: &[Stmt], asked: &ClassSet, s: &Selector)
    requires asks { AsksOnly asked.now (selector_of s.now) }
    ensures unmatched { (¬ Reaches page.now (statements_of stmts.now) (selector_of s.now))
        → (t : LabelTree) → Edits asked.now (statements_of stmts.now) page.now t → (v : List ℕ) → ¬ Matches t v (selector_of s.now) }
    ensures reaches { ReachesByEdits asked.now (statements_of stmts.now) page.now (selector_of s.now)
        → Reaches page.now (statements_of stmts.now) (selector_of s.now) }
{}

/// Let each statement be on all nodes, and add atoms or put one node. Then legal steps are edits.
pub fn steps_are_edits(page: &Tree, stmts: &[Stmt], asked: &ClassSet)
    requires output { IsOutput (statements_of stmts.now) }
    ensures { (steps : List step.Step) → AreLegal page.now (statements_of stmts.now) steps
        → Edits asked.now (statements_of stmts.now) page.now (end_of page.now (statements_of stmts.now) steps) }
{}

/// Whatever a computed value holds, it comes by edits. It may be atoms that a node gets, where those that are asked for are
/// given. Or it is a tree that a node gets as a child, at any place, where new nodes may have its labels.
pub fn any_value_comes_by_edits(page: &Tree, stmts: &[Stmt], asked: &ClassSet)
    ensures atoms { (atoms : List ℕ) (t : LabelTree) (v : List ℕ) → Edits asked.now (statements_of stmts.now) page.now t → IsNode t v
        → AreGiven asked.now (statements_of stmts.now) atoms → Edits asked.now (statements_of stmts.now) page.now (edit_at v (add_classes atoms) t) }
    ensures trees { (y t : LabelTree) (v : List ℕ) (k : ℕ) → Edits asked.now (statements_of stmts.now) page.now t → IsNode t v
        → IsAllowedTree asked.now (statements_of stmts.now) y → Edits asked.now (statements_of stmts.now) page.now (edit_at v (insert_child k y) t) }
{}

/// Let an output cover what the statements add, up to what is asked for. Then what they do to a tree that edits make of the
/// page, with losses between, are edits. The tree that they make of the page embeds into one that legal steps of the output
/// make of it, up to what is asked for.
pub fn covered_statements_make_edits(page: &Tree, stmts: &[Stmt], output: &[Stmt], asked: &ClassSet)
    requires covered { AreCovered asked.now (statements_of output.now) (statements_of stmts.now) }
    ensures edits { (events : List event.Event) (t : LabelTree) → Edits asked.now (statements_of output.now) page.now t
        → AreLegalEvents t (statements_of stmts.now) events → Edits asked.now (statements_of output.now) page.now (end_of_events t (statements_of stmts.now) events) }
    ensures embeds { (events : List event.Event) → AreLegalEvents page.now (statements_of stmts.now) events
        → (steps : List step.Step) × AreLegal page.now (statements_of output.now) steps
        × (image : List ℕ → List ℕ) × IsEmbedding (Contains asked.now) (end_of_events page.now (statements_of stmts.now) events) (end_of page.now (statements_of output.now) steps) image }
{}

/// So each selector that they reach the output's statements reach.
pub fn covered_statements_reach_nothing_more(
    page: &Tree,
    stmts: &[Stmt],
    output: &[Stmt],
    asked: &ClassSet,
    s: &Selector,
)
    requires asks { AsksOnly asked.now (selector_of s.now) }
    requires covered { AreCovered asked.now (statements_of output.now) (statements_of stmts.now) }
    ensures { ReachesWithLosses page.now (statements_of stmts.now) (selector_of s.now) → Reaches page.now (statements_of output.now) (selector_of s.now) }
{}
