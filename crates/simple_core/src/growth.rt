//! Laws of growth: every legal step keeps a tree grown, and closed labels tell exactly which atoms the page's nodes can get.
ghost use Rattle.std.specs.Prelude.{ℕ, List};
ghost use Rattle.tree_sem.specs.Trees.{LabelTree};
ghost use Rattle.tree_sem.specs.Nodes.{IsNode, HasAtom};
ghost use Rattle.simple_core.specs.Systems.{IsSound};
ghost use Rattle.simple_core.specs.Pages.{InClosed};
ghost use Rattle.simple_core.specs.SimpleSteps.{SimpleStep, IsLegal, after_step, end_of, AreLegal};
ghost use Rattle.simple_core.specs.Growth.{IsGrown};
ghost use Rattle.simple_core.specs.Reached.{Got};

use crate::system::System;
use tree_sem::Tree;

/// The page itself is grown, and each legal step leaves a grown tree grown.
pub fn keeps_growth(page: &Tree, system: &System)
    requires { IsSound system.now }
    ensures page { IsGrown system.now page.now page.now }
    ensures step { (u : LabelTree) (step : SimpleStep) → IsGrown system.now page.now u → IsLegal system.now u step → IsGrown system.now page.now (after_step system.now u step) }
{}

/// A node of the page never gets an atom that is not in its closed label.
pub fn keeps_out(page: &Tree, system: &System)
    requires { IsSound system.now }
    ensures { (steps : List SimpleStep) (v : List ℕ) (a : ℕ) → AreLegal system.now page.now steps → IsNode page.now v
        → HasAtom (end_of system.now page.now steps) v a → InClosed system.now page.now v a }
{}

/// A node of the page gets each atom of its closed label by some legal steps.
pub fn brings_closed(page: &Tree, system: &System)
    ensures { (v : List ℕ) (a : ℕ) → IsNode page.now v → InClosed system.now page.now v a → Got system.now page.now v a }
{}
