//! Laws: the pruned sheet does at each node what the sheet does.
ghost use Rattle.std.specs.Prelude.{Bool, List, ℕ};
ghost use Rattle.sel_text.specs.Selectors.{Selector as selector};
ghost use Rattle.jq_stmts.specs.Views.{statements_of};
ghost use Rattle.css_prune.specs.Alike.{IsPrunedAlike, IsReadAgain, KeepsPageEffects};
ghost use Rattle.css_prune.specs.NodeEffects.{KeepsEffects, Tells};

use jq_stmts::Stmt;
use tree_sem::Tree;

/// Where the script of a page never reaches the flagged selectors, with losses or without, the pruned sheet has the effects
/// of the sheet. At each node of each tree that the page becomes the same selectors match. They have the same blocks and the
/// same at-rules round them.
pub fn pruning_keeps_the_effects(page: &Tree, stmts: &[Stmt], text: &[u8])
    ensures effects { KeepsEffects page.now (statements_of stmts.now) text.now }
    ensures tests { (v : List ℕ) → (test : selector → Bool) × Tells page.now v test }
{}

/// Two readings of one text that are both accepted leave the same of it, where the same selectors are flagged, whatever
/// names were in the table before.
pub fn alike_sheets_are_pruned_alike(text: &[u8])
    ensures { IsPrunedAlike text.now }
{}

/// A text may be read for a page, and pruned as it is read with the names of another page. What is left of it is read
/// again with the page's names. Where the script of the page never reaches the selectors that are flagged, it does at
/// each node of each tree that the page becomes what the sheet does there.
pub fn pruning_keeps_the_effects_of_each_page(page: &Tree, stmts: &[Stmt], text: &[u8])
    ensures reads { IsReadAgain text.now }
    ensures effects { KeepsPageEffects page.now (statements_of stmts.now) text.now }
{}
