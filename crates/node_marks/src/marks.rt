//! A set of nodes as one bit for each node of a tree.
ghost use Rattle.std.specs.Prelude.{◌≡◌, IfOk};
ghost use Rattle.node_marks.specs.Marks.{mark};

use std::marker::Model;
use tp_base::NoMemory;

/// A set of nodes: a mark for each node of a tree, in the order of the document. A contract sees the list of the
/// marks; one that is missing is no mark.
#[derive(Drop)]
pub struct Marks {
    items: Vec<bool>,
}

impl Model for Marks {
    ghost use Rattle.std.specs.Prelude.{List, Bool};

    ghost Value = { List Bool };

    ghost view = { λ m. m.items.items };
}

impl Marks {
    /// The set with these marks. Constant.
    pub fn new(items: Vec<bool>) -> Self
        ensures { result ≡ items.items }
    {
        Marks { items }
    }

    /// The marks. Constant.
    pub fn items(&self) -> &[bool]
        ensures { result.now ≡ self.now }
    {
        &self.items
    }

    /// Whether the node of this number has a mark, where the root has the number 0.
    pub fn at(&self, number: usize) -> bool
        ensures { result ≡ mark self.now number }
    {
        match self.items.get(number) {
            Some(mark) => *mark,
            None => false,
        }
    }

    /// A copy of the set.
    pub fn copy(&self) -> Result<Marks, NoMemory>
        ensures { IfOk result (λ m. m ≡ self.now) }
    {
        Ok(Marks {
            items: Vec::from_slice(*self.items.allocator(), &self.items)?,
        })
    }
}
