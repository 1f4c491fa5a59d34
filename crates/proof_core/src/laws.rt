//! Laws: what a valid proof shows.
ghost use Rattle.std.specs.Prelude.{[], List};
ghost use Rattle.tree_sem.specs.Nodes.{HasAtom};
ghost use Rattle.simple_core.specs.SimpleSteps.{SimpleStep, AreLegal, end_of};
ghost use Rattle.proof_check.specs.Validity.{IsValid};
ghost use Rattle.proof_core.specs.Readings.{IsReading, IsWitness, read_by};

use proof_check::Proof;
use simple_core::System;
use std::marker::Brand;
use tp_base::Atom;
use tree_sem::Tree;

/// A valid proof shows its target: some legal list of simple steps from the page ends in a tree whose root has the target atom.
pub fn valid_shows(proof: &Proof, system: &System, page: &Tree, target: Atom)
    requires valid { IsValid system.now page.now proof.now target }
    ensures { (steps : List SimpleStep) × AreLegal system.now page.now steps × HasAtom (end_of system.now page.now steps) [] target }
{}

/// A meaning for the atoms and kinds of a system. It gives each kind the subtree at its node in its forest. It says which steps are
/// legal in a tree, and which tree they lead to. It says of which nodes an atom is true, and which nodes the target looks for.
pub trait Reading {
    ghost use Rattle.std.specs.Prelude.{ℕ, List};
    ghost use Rattle.tree_sem.specs.declared.actions.Step.{Step};
    ghost use Rattle.tree_sem.specs.Trees.{LabelTree};

    ghost kind_tree: { ℕ → LabelTree };

    ghost legal: { LabelTree → Step → Type 0 };

    ghost after: { LabelTree → Step → LabelTree };

    ghost means: { LabelTree → List ℕ → ℕ → Type 0 };

    ghost found: { LabelTree → List ℕ → Type 0 };
}

// A caller names its own meaning in the place of this one.
impl Reading for Brand {
    ghost use Rattle.std.specs.Prelude.{[]};
    ghost use Rattle.tree_sem.specs.Trees.{leaf};

    ghost kind_tree = { λ j. leaf [] };

    ghost legal = { λ t step. ⊥ };

    ghost after = { λ t step. t };

    ghost means = { λ t v a. ⊥ };

    ghost found = { λ t v. ⊥ };
}

/// The steps that a valid proof unfolds to are legal from the page, one after another. In the tree at their end, the proof's node is
/// one that the target looks for. This holds for each meaning for which the rules of the system are sound.
pub fn unfolding_is_right<R: Reading>(proof: &Proof, system: &System, page: &Tree, target: Atom)
    requires reading { IsReading (read_by system.now R.kind_tree R.legal R.after R.means target R.found) page.now }
    requires valid { IsValid system.now page.now proof.now target }
    ensures { IsWitness (read_by system.now R.kind_tree R.legal R.after R.means target R.found) page.now proof.now }
{}
