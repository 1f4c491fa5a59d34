//! Statements: the nodes that a script selects, and the action that it does at each of them.
ghost use Rattle.std.specs.Prelude.{◌≡◌, map, IfOk};
ghost use Rattle.jq_stmts.specs.Views.{chain_of};

use crate::chains::Chain;
use std::marker::Model;
use tp_base::{NoMemory, Place};
use tree_sem::Action;

/// A list of chains. A contract sees the list.
#[derive(Drop)]
pub struct Chains {
    items: Vec<Chain>,
}

impl Model for Chains {
    ghost use Rattle.std.specs.Prelude.{List};
    ghost use Rattle.jq_stmts.specs.declared.chains.Chain.{Chain};

    ghost Value = { List Chain };

    ghost view = { λ c. c.items.items };
}

impl Chains {
    /// A list of chains from a vector of them. Constant.
    pub fn new(items: Vec<Chain>) -> Self
        ensures { result ≡ items.items }
    {
        Chains { items }
    }

    /// The chains as a slice. Constant.
    pub fn items(&self) -> &[Chain]
        ensures { result.now ≡ self.now }
    {
        &self.items
    }

    /// A copy of the chains. Linear in the number of their calls.
    pub fn copy(&self) -> Result<Chains, NoMemory>
        ensures { IfOk result (λ cs. map chain_of cs ≡ map chain_of self.now) }
    {
        let mut copies = Vec::new(*self.items.allocator());
        for chain in &self.items {
            copies.push(chain.copy()?)?;
        }
        Ok(Chains { items: copies })
    }
}

/// A statement of a script. Its place is that of its action's name. It stands in the handlers, outermost first, and does its action
/// at the nodes of its chain.
#[derive(Drop)]
pub struct Stmt {
    pub place: Place,
    pub handlers: Chains,
    pub chain: Chain,
    pub action: Action,
}
