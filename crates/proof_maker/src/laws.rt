//! Laws of canonical proofs.
ghost use Rattle.std.specs.Prelude.{◌≡◌, ◌<◌, ◌↔◌, length};
ghost use Rattle.simple_core.specs.Systems.{IsSound};
ghost use Rattle.proof_check.specs.Validity.{IsValid};
ghost use Rattle.proof_maker.specs.Forests.{KeepsForests};
ghost use Rattle.proof_maker.specs.Needs.{IsCanonical, UsesMore};

use proof_check::Proof;
use simple_core::System;
use tp_base::Atom;
use tree_sem::Tree;

/// The canonical proof of an atom is valid.
pub fn canonical_is_valid(page: &Tree, system: &System, target: Atom, proof: &Proof)
    requires sound { IsSound system.now }
    requires forests { KeepsForests system.now page.now }
    requires canonical { IsCanonical system.now page.now target proof.now }
    ensures { IsValid system.now page.now proof.now target }
{}

/// An atom has one canonical proof.
pub fn canonical_is_one(page: &Tree, system: &System, target: Atom, proof: &Proof, other: &Proof)
    requires canonical { IsCanonical system.now page.now target proof.now }
    requires other { IsCanonical system.now page.now target other.now }
    ensures { proof.now ≡ other.now }
{}

/// A canonical proof has more than n entries exactly where the atom uses more than n different triples.
pub fn canonical_length(page: &Tree, system: &System, target: Atom, proof: &Proof, n: u32)
    requires canonical { IsCanonical system.now page.now target proof.now }
    ensures { UsesMore system.now page.now target n ↔ (n < length proof.now.entries) }
{}
