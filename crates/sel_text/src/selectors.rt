//! The syntax tree of a selector: compounds from left to right, with a combinator between each two.
ghost use Rattle.std.specs.Prelude.{◌≡◌, ◌+◌, [], ◌∷◌, length, IfOk};
ghost use Rattle.sel_text.specs.Selectors.{simple};
ghost use Rattle.sel_text.specs.Parts.{selector_from};

use std::alloc::Global;
use std::marker::Model;
use tp_base::{Atom, NoMemory};

/// The atoms of a compound. A contract sees the list of their numbers.
#[derive(Debug, Drop)]
pub struct Atoms {
    items: Vec<Atom>,
}

impl Model for Atoms {
    ghost use Rattle.std.specs.Prelude.{ℕ, List};

    ghost Value = { List ℕ };

    ghost view = { λ a. a.items.items };
}

impl Atoms {
    /// A list of these atoms. Constant.
    pub fn new(items: Vec<Atom>) -> Self
        ensures { result ≡ items.items }
    {
        Atoms { items }
    }

    /// The atoms. Constant.
    pub fn items(&self) -> &[Atom]
        ensures { result.now ≡ self.now }
    {
        &self.items
    }

    /// A copy of the atoms, with no room to spare. Linear in their number.
    pub fn copy(&self) -> Result<Atoms, NoMemory>
        ensures { IfOk result (λ x. x ≡ self.now) }
    {
        Ok(Atoms {
            items: Vec::from_slice(*self.items.allocator(), &self.items)?,
        })
    }
}

/// What one node has to have: the type first, if there is one, and then the classes, ids and attributes as written.
/// Without atoms it is `*`.
#[derive(Debug, Drop)]
pub struct Compound {
    pub atoms: Atoms,
}

impl Compound {
    /// A copy of the compound. Linear in its atoms.
    pub fn copy(&self) -> Result<Compound, NoMemory>
        ensures { IfOk result (λ x. x ≡ self.now) }
    {
        Ok(Compound {
            atoms: self.atoms.copy()?,
        })
    }
}

/// How a compound stands to the one on its right.
#[derive(Clone, Copy, Debug, PartialEq, Eq)]
pub enum Join {
    /// `a b`: at some node above.
    Inside,
    /// `a > b`: at the parent.
    Child,
}

/// Compounds, from left to right. A contract sees the list of them.
#[derive(Debug, Drop)]
pub struct Compounds {
    items: Vec<Compound>,
}

impl Model for Compounds {
    ghost use Rattle.std.specs.Prelude.{List};
    ghost use Rattle.sel_text.specs.declared.selectors.Compound.{Compound};

    ghost Value = { List Compound };

    ghost view = { λ c. c.items.items };
}

impl Compounds {
    /// A list of these compounds. Constant.
    pub fn new(items: Vec<Compound>) -> Self
        ensures { result ≡ items.items }
    {
        Compounds { items }
    }

    /// The compounds. Constant.
    pub fn items(&self) -> &[Compound]
        ensures { result.now ≡ self.now }
    {
        &self.items
    }

    /// A copy of the compounds, with no room to spare. Linear in their atoms.
    pub fn copy(&self) -> Result<Compounds, NoMemory>
        ensures { IfOk result (λ x. x ≡ self.now) }
    {
        let mut copies = Vec::with_capacity(*self.items.allocator(), self.items.len())?;
        for compound in &self.items {
            copies.push(compound.copy()?)?;
        }
        Ok(Compounds { items: copies })
    }
}

/// The joins between compounds, from left to right. A contract sees the list of them.
#[derive(Debug, Drop)]
pub struct Joins {
    items: Vec<Join>,
}

impl Model for Joins {
    ghost use Rattle.std.specs.Prelude.{List};
    ghost use Rattle.sel_text.specs.declared.selectors.Join.{Join};

    ghost Value = { List Join };

    ghost view = { λ j. j.items.items };
}

impl Joins {
    /// A list of these joins. Constant.
    pub fn new(items: Vec<Join>) -> Self
        ensures { result ≡ items.items }
    {
        Joins { items }
    }

    /// The joins. Constant.
    pub fn items(&self) -> &[Join]
        ensures { result.now ≡ self.now }
    {
        &self.items
    }

    /// A copy of the joins. Linear in their number.
    pub fn copy(&self) -> Result<Joins, NoMemory>
        ensures { IfOk result (λ x. x ≡ self.now) }
    {
        Ok(Joins {
            items: Vec::from_slice(*self.items.allocator(), &self.items)?,
        })
    }
}

/// Compounds, and between each two neighbours how they are joined.
#[derive(Debug, Drop)]
pub struct Selector {
    pub parts: Compounds,
    pub joins: Joins,
    ghost between: { length parts ≡ length joins + 1 },
}

impl Selector {
    /// The selector of one compound.
    pub fn of_one(alloc: Global, compound: Compound) -> Result<Selector, NoMemory>
        ensures { IfOk result (λ s. selector_from s.parts s.joins ≡ simple compound.atoms) }
    {
        let mut parts = Vec::new(alloc);
        parts.push(compound)?;
        Ok(Selector {
            parts: Compounds::new(parts),
            joins: Joins::new(Vec::new(alloc)),
        })
    }

    /// A copy of the selector, with no room to spare. Linear in its atoms.
    pub fn copy(&self) -> Result<Selector, NoMemory>
        ensures { IfOk result (λ s. selector_from s.parts s.joins ≡ selector_from self.now.parts self.now.joins) }
    {
        Ok(Selector {
            parts: self.parts.copy()?,
            joins: self.joins.copy()?,
        })
    }
}
