//! Laws of cells, for crates that build on them.
ghost use Rattle.simple_core.specs.Systems.{IsSound};
ghost use Rattle.pushdown_sym.specs.Laws.{TellGrown, AreOrdered};

use simple_core::System;

/// The cell of a kind and an atom in round k is an ordered decision tree. It is true of the parent's visible labels below
/// which a node of the kind has the atom after k rounds.
pub fn cells_tell(system: &System)
    requires sound { IsSound system.now }
    ensures grown { TellGrown system.now }
    ensures ordered { AreOrdered system.now }
{}
