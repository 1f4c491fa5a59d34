//! References to diagrams.
ghost use Rattle.std.specs.Prelude.{◌≡◌, ◌↔◌, ◌≤◌, ◌<◌, IsTrue};
ghost use Rattle.class_diagrams.specs.Numbers.{number_of};

use limits::MOST_BRANCHES;
use std::marker::Model;

/// A diagram of one arena. Equal trees have equal references. A contract sees a leaf, or the number of a branch.
#[derive(Clone, Copy, Debug, PartialEq, Eq, Hash)]
pub struct Ref(u32);

/// What a reference stands for. The leaves are the first two references, so that one fits a `u32`.
#[derive(Clone, Copy, Debug, PartialEq, Eq)]
pub(crate) enum Target {
    Leaf(bool),
    Branch(u32),
}

impl Model for Ref {
    ghost use Rattle.class_diagrams.specs.declared.refs.Target.{Target};

    ghost Value = { Target };

    ghost use Rattle.class_diagrams.specs.Numbers.{target_of, number_of, number_of-target_of};

    ghost view = { λ r. target_of r.0 };

    ghost inverse = { λ p. record { 0 = number_of p } };

    ghost inverse_ok = { λ a h. λ i. record { 0 = number_of-target_of a.0 i } };
}

impl Ref {
    pub(crate) fn leaf(value: bool) -> Ref
        ensures { result ≡ Target.Leaf value }
    {
        if value { Ref(1) } else { Ref(0) }
    }

    pub(crate) fn branch(number: u32) -> Ref
        requires { number ≤ MOST_BRANCHES }
        ensures { result ≡ Target.Branch number }
    {
        Ref(number + 2)
    }

    pub(crate) fn target(self) -> Target
        ensures { result ≡ self }
    {
        match self.0 {
            0 => Target::Leaf(false),
            1 => Target::Leaf(true),
            number => Target::Branch(number - 2),
        }
    }

    pub(crate) fn number(self) -> u32
        ensures { result ≡ number_of self }
    {
        self.0
    }

    pub(crate) fn is(self, other: Ref) -> bool
        ensures { IsTrue result ↔ (self ≡ other) }
    {
        self == other
    }
}
