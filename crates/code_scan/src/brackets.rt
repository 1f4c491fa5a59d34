//! Brackets that are open.
ghost use Rattle.std.specs.Prelude.{◌≡◌, [], ◌∷◌, drop, OnOk};
ghost use Rattle.code_scan.specs.States as spec;

use std::alloc::Global;
use std::marker::Model;
use tp_base::NoMemory;

/// A kind of bracket.
#[derive(Clone, Copy, Debug, PartialEq, Eq)]
pub(crate) enum Bracket {
    /// `(` and `)`.
    Round,
    /// The same round a condition, or what is counted through.
    Heading,
    /// `[` and `]`.
    Square,
    /// `{` and `}`.
    Curly,
    /// `${` and `}` in a template.
    Hole,
}

impl Bracket {
    // Whether a mark closes it.
    fn is_closed_by(self, spelling: &[u8]) -> bool
        ensures { result ≡ spec.closes spelling.now self }
    {
        match self {
            Bracket::Round | Bracket::Heading => spelling == b")".as_slice(),
            Bracket::Square => spelling == b"]".as_slice(),
            Bracket::Curly => spelling == b"}".as_slice(),
            Bracket::Hole => false,
        }
    }
}

/// Brackets that are open. A contract sees the list of them, from the innermost outward.
#[derive(Drop)]
pub(crate) struct OpenBrackets {
    items: Vec<Bracket>,
}

impl Model for OpenBrackets {
    ghost use Rattle.std.specs.Prelude.{List, reverse};
    ghost use Rattle.code_scan.specs.declared.brackets.Bracket.{Bracket};

    ghost Value = { List Bracket };

    ghost view = { λ o. reverse o.items.items };
}

impl OpenBrackets {
    /// None is open. Constant.
    pub(crate) fn none(alloc: Global) -> Self
        ensures { result ≡ [] }
    {
        OpenBrackets {
            items: Vec::new(alloc),
        }
    }

    /// Whether the innermost is that of a condition. Constant.
    #[tactic(auto, unfolding(crate::specs::States::is_heading))]
    pub(crate) fn is_heading(&self) -> bool
        ensures { spec.is_heading self.now ≡ result }
    {
        match self.items.last() {
            Some(Bracket::Heading) => true,
            _ => false,
        }
    }

    /// Whether the innermost is a hole of a template. Constant.
    #[tactic(auto, unfolding(crate::specs::States::is_in_hole))]
    pub(crate) fn is_in_hole(&self) -> bool
        ensures { spec.is_in_hole self.now ≡ result }
    {
        match self.items.last() {
            Some(Bracket::Hole) => true,
            _ => false,
        }
    }

    /// Whether a mark closes the innermost. Constant.
    #[tactic(auto, unfolding(crate::specs::States::closes_innermost))]
    pub(crate) fn closes_innermost(&self, spelling: &[u8]) -> bool
        ensures { spec.closes_innermost spelling.now self.now ≡ result }
    {
        match self.items.last() {
            Some(bracket) => bracket.is_closed_by(spelling),
            None => false,
        }
    }

    /// Opens another one. Constant on average.
    #[tactic(auto, using(tp_base::proofs::Lists::pushed_last))]
    pub(crate) fn push(&mut self, bracket: Bracket) -> Result<(), NoMemory>
        ensures { OnOk result (self.new ≡ bracket ∷ self.old) }
    {
        self.items.push(bracket)?;
        Ok(())
    }

    /// Closes the innermost, if any is open. Constant.
    #[tactic(auto, using(tp_base::proofs::Lists::popped_last))]
    pub(crate) fn pop(&mut self)
        ensures { self.new ≡ drop 1 self.old }
    {
        self.items.pop();
    }
}
