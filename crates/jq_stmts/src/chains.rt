//! Chains of method calls. Each call makes a set of nodes from the set before it.
ghost use Rattle.std.specs.Prelude.{◌≡◌, map, IfOk};
ghost use Rattle.sel_text.specs.Views.{selector_of};
ghost use Rattle.jq_stmts.specs.Views.{root_of, call_of, chain_of};

use sel_text::{Compound, Selector};
use std::marker::Model;
use tp_base::{NoMemory, Shared};

/// A list of selectors, which several chains may share. A contract sees the list.
pub type Selectors = Shared<Selector>;

/// A list of compounds, which several chains may share. A node fits the list where it fits one of them. A contract sees the list.
pub type SharedCompounds = Shared<Compound>;

/// The set that a chain begins with.
#[derive(Drop)]
pub enum Root {
    /// The nodes that one of the selectors matches.
    List(Selectors),
    /// The node that `this` names in a handler.
    This,
}

impl Root {
    /// A copy of the root. Constant: both share the selectors.
    pub fn copy(&self) -> Result<Root, NoMemory>
        ensures { IfOk result (λ r. root_of r ≡ root_of self.now) }
    {
        match self {
            Root::List(selectors) => Ok(Root::List(selectors.copy()?)),
            Root::This => Ok(Root::This),
        }
    }
}

/// A call that makes a new set from the set before it. A list of compounds filters the new set. Without compounds,
/// `Children`, `Parent`, `Parents` and `Near` keep every node.
#[derive(Drop)]
pub enum Call {
    Find(SharedCompounds),
    Children(SharedCompounds),
    Parent(SharedCompounds),
    Parents(SharedCompounds),
    Filter(SharedCompounds),
    Has(SharedCompounds),
    /// The nodes of the set and all their ancestors.
    Around(SharedCompounds),
    /// The nodes of the set and all their siblings.
    Near(SharedCompounds),
    Add(Selectors),
    End,
}

impl Call {
    /// A copy of the call. Constant: both share the compounds or selectors.
    pub fn copy(&self) -> Result<Call, NoMemory>
        ensures { IfOk result (λ c. call_of c ≡ call_of self.now) }
    {
        match self {
            Call::Find(cs) => Ok(Call::Find(cs.copy()?)),
            Call::Children(cs) => Ok(Call::Children(cs.copy()?)),
            Call::Parent(cs) => Ok(Call::Parent(cs.copy()?)),
            Call::Parents(cs) => Ok(Call::Parents(cs.copy()?)),
            Call::Filter(cs) => Ok(Call::Filter(cs.copy()?)),
            Call::Has(cs) => Ok(Call::Has(cs.copy()?)),
            Call::Around(cs) => Ok(Call::Around(cs.copy()?)),
            Call::Near(cs) => Ok(Call::Near(cs.copy()?)),
            Call::Add(selectors) => Ok(Call::Add(selectors.copy()?)),
            Call::End => Ok(Call::End),
        }
    }
}

/// The calls of a chain, in their order. A contract sees the list of them.
#[derive(Drop)]
pub struct Calls {
    items: Vec<Call>,
}

impl Model for Calls {
    ghost use Rattle.std.specs.Prelude.{List};
    ghost use Rattle.jq_stmts.specs.declared.chains.Call.{Call};

    ghost Value = { List Call };

    ghost view = { λ c. c.items.items };
}

impl Calls {
    /// A chain's calls from a vector of them. Constant.
    pub fn new(items: Vec<Call>) -> Self
        ensures { result ≡ items.items }
    {
        Calls { items }
    }

    /// The calls as a slice. Constant.
    pub fn items(&self) -> &[Call]
        ensures { result.now ≡ self.now }
    {
        &self.items
    }

    /// A copy of the calls. Linear in their number.
    pub fn copy(&self) -> Result<Calls, NoMemory>
        ensures { IfOk result (λ cs. map call_of cs ≡ map call_of self.now) }
    {
        let mut copies = Vec::new(*self.items.allocator());
        for call in &self.items {
            copies.push(call.copy()?)?;
        }
        Ok(Calls { items: copies })
    }
}

/// The set that a chain begins with, and the calls behind it.
#[derive(Drop)]
pub struct Chain {
    pub root: Root,
    pub calls: Calls,
}

impl Chain {
    /// A copy of the chain. Linear in the number of its calls.
    pub fn copy(&self) -> Result<Chain, NoMemory>
        ensures { IfOk result (λ c. chain_of c ≡ chain_of self.now) }
    {
        let root = self.root.copy()?;
        let calls = self.calls.copy()?;
        Ok(Chain { root, calls })
    }
}
