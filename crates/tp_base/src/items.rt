//! Lists inside types, which contracts see as lists.
ghost use Rattle.std.specs.Prelude.{◌≡◌, ◌∷◌, ◌++◌, [], IfOk, OnOk, OnErr};

use crate::no_memory::NoMemory;
use std::alloc::Global;
use std::marker::Model;
use std::rc::Rc;

/// Items in their order. A contract sees the list of them.
#[derive(Debug, Drop)]
pub struct Items<T> {
    items: Vec<T>,
}

impl<T> Model for Items<T> {
    ghost use Rattle.std.specs.Prelude.{List};

    ghost Value = { List T };

    ghost view = { λ l. l.items.items };
}

impl<T: Drop> Items<T> {
    /// Constant: the items are kept where they are.
    pub fn new(items: Vec<T>) -> Self
        ensures { result ≡ items.items }
    {
        Items { items }
    }

    /// The items, lent. Constant.
    pub fn items(&self) -> &[T]
        ensures { result.now ≡ self.now }
    {
        &self.items
    }

    /// The list of them. Constant.
    pub fn into_items(self) -> Vec<T>
        ensures { result.items ≡ self }
    {
        self.items
    }

    /// The allocator that their memory comes from. Constant.
    pub fn allocator(&self) -> Global {
        *self.items.allocator()
    }

    /// Adds an item at the end. Constant on average.
    pub fn push(&mut self, item: T) -> Result<(), NoMemory>
        ensures ok { OnOk result (self.new ≡ self.old ++ item ∷ []) }
        ensures err { OnErr result (self.new ≡ self.old) }
    {
        self.items.push(item)?;
        Ok(())
    }
}

/// Items in their order, which copies share. A contract sees the list of them.
#[derive(Drop)]
pub struct Shared<T> {
    items: Rc<Vec<T>>,
}

impl<T> Model for Shared<T> {
    ghost use Rattle.std.specs.Prelude.{List};

    ghost Value = { List T };

    ghost view = { λ l. l.items.value.items };
}

impl<T: Drop> Shared<T> {
    /// Constant: the items are kept where they are.
    pub fn new(items: Vec<T>) -> Result<Self, NoMemory>
        ensures { IfOk result (λ l. l ≡ items.items) }
    {
        Ok(Shared {
            items: Rc::new(*items.allocator(), items)?,
        })
    }

    /// The items, lent. Constant.
    pub fn items(&self) -> &[T]
        ensures { result.now ≡ self.now }
    {
        &self.items
    }

    /// A copy of the items. Constant: both share them.
    pub fn copy(&self) -> Result<Self, NoMemory>
        ensures { IfOk result (λ l. l ≡ self.now) }
    {
        Ok(Shared {
            items: self.items.clone()?,
        })
    }
}
