//! Sets of atoms at which a diagram is evaluated.
ghost use Rattle.std.specs.Prelude.{◌≡◌, ◌↔◌, ◌<◌, ◌+◌, ◌*◌, IsTrue, All};
ghost use Rattle.tp_base.specs.Classes.{has_class};
ghost use Rattle.class_diagrams.specs.Trees.{eval};
ghost use Rattle.class_diagrams.specs.Arena.{tree_at, IsIn};

use crate::diagrams::Diagrams;
use crate::marks::{Marks, numbers_of};
use crate::refs::Ref;
use tp_base::{Atom, ClassSet};

/// A set of atoms, as it is or by its marks.
pub trait AtomSet {
    ghost use Rattle.std.specs.Prelude.{ℕ, List};

    // Its atoms, as a list.
    ghost atoms: { Self → List ℕ };

    /// Whether the atom is in the set.
    fn has_atom(&self, atom: Atom) -> bool
        ensures { result ≡ has_class atom (atoms self.now) };

    /// Whether the set satisfies the diagram.
    fn satisfies(&self, d: &Diagrams, f: Ref) -> bool
        requires { IsIn d.now.branches f }
        ensures { result ≡ eval (tree_at d.now.branches f) (atoms self.now) };
}

impl AtomSet for ClassSet {
    ghost atoms = { λ s. s };

    fn has_atom(&self, atom: Atom) -> bool {
        self.has(atom)
    }

    fn satisfies(&self, d: &Diagrams, f: Ref) -> bool {
        d.eval(f, self)
    }
}

impl AtomSet for Marks {
    ghost atoms = { λ m. m };

    fn has_atom(&self, atom: Atom) -> bool {
        self.has(atom)
    }

    fn satisfies(&self, d: &Diagrams, f: Ref) -> bool {
        d.eval_marked(f, self)
    }
}

/// Whether so many looks are worth the marks of a set, which are a byte for each number up to its largest atom. Constant.
pub fn are_worth_marks(looks: usize, set: &ClassSet) -> bool
    ensures { IsTrue result ↔ All (λ a. a < 64 * (looks + 1)) set.now }
{
    numbers_of(set).saturating_sub(1) / NUMBERS_A_LOOK <= looks
}

// How many bytes are filled in the time of one look; the same number as in the contract.
const NUMBERS_A_LOOK: usize = 64;
