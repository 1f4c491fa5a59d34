//! Forests: the trees that an action adds, in their order.
ghost use Rattle.std.specs.Prelude.{◌≡◌, IfOk};

use crate::label_tree::Tree;
use std::marker::Model;
use tp_base::NoMemory;

/// Trees in a row. A contract sees the list of them.
#[derive(Drop)]
pub struct Trees {
    items: Vec<Tree>,
}

impl Model for Trees {
    ghost use Rattle.std.specs.Prelude.{List};
    ghost use Rattle.std.specs.Coded.{coded_list};
    ghost use Rattle.tree_sem.specs.Trees.{LabelTree};
    ghost use Rattle.tree_sem.specs.TreeCode.{tree_code};

    ghost Value = { List LabelTree };

    ghost coded = { coded_list tree_code };

    ghost view = { λ t. t.items.items };
}

impl Trees {
    /// A list of these trees. Constant.
    pub fn new(items: Vec<Tree>) -> Self
        ensures { result ≡ items.items }
    {
        Trees { items }
    }

    /// The trees. Constant.
    pub fn items(&self) -> &[Tree]
        ensures { result.now ≡ self.now }
    {
        &self.items
    }

    /// A copy of the trees. Linear in their labels and nodes.
    pub fn copy(&self) -> Result<Trees, NoMemory>
        ensures { IfOk result (λ t. t ≡ self.now) }
    {
        let mut copies = Vec::new(*self.items.allocator());
        for tree in &self.items {
            copies.push(tree.copy()?)?;
        }
        Ok(Trees { items: copies })
    }
}

/// What a piece of markup makes: trees next to one another, without a common parent.
#[derive(Drop)]
pub struct Forest {
    pub tops: Trees,
}

impl Forest {
    /// A copy of the forest. Linear in its labels and nodes.
    pub fn copy(&self) -> Result<Forest, NoMemory>
        ensures { IfOk result (λ f. f ≡ self.now) }
    {
        Ok(Forest {
            tops: self.tops.copy()?,
        })
    }
}
