//! Laws: a rule and its statement select the same nodes and make the same steps.
ghost use Rattle.jq_stmts.specs.Views.{statement_of, statements_of};
ghost use Rattle.rule_translate.specs.Laws.{HoldsWhereSelected, AreAlike};

use jq_stmts::Stmt;
use tree_sem::Tree;

/// The guard of a statement holds exactly where the statement selects, in every tree.
pub fn guard_selects(tree: &Tree, s: &Stmt)
    ensures { HoldsWhereSelected tree.now (statement_of s.now) }
{}

/// The steps of statements and those of their rules make the same trees.
#[tactic(auto, using(crate::proofs::StepLemmas::steps_alike))]
pub fn rules_are_alike(page: &Tree, stmts: &[Stmt])
    ensures { AreAlike page.now (statements_of stmts.now) }
{}
