//! Chains that share their root and their calls.
ghost use Rattle.std.specs.Prelude.{◌≡◌, [], ◌∷◌, ◌++◌, IfOk};
ghost use Rattle.jq_stmts.specs.Views.{root_of};
ghost use Rattle.jq_chains.specs.MarkedCalls.{marked_of, marked_chain_of};
ghost use Rattle.jq_chains.specs.SharedChains.{is_this_root, shared_of};

use crate::marked_calls::{MarkedCall, MarkedChain};
use crate::shared_calls::SharedCalls;
use jq_stmts::Root;
use std::alloc::Global;
use tp_base::NoMemory;

/// A set to begin with, and the calls after it, both of which other chains may share.
#[derive(Drop)]
pub struct SharedChain {
    pub root: Root,
    pub calls: SharedCalls,
}

impl SharedChain {
    /// A chain without calls. Constant.
    pub fn new(alloc: Global, root: Root) -> Result<Self, NoMemory>
        ensures { IfOk result (λ c. shared_of c ≡ record { root = root_of root; calls = [] }) }
    {
        Ok(SharedChain {
            root,
            calls: SharedCalls::none(alloc)?,
        })
    }

    /// A second reference to the chain. Constant: both share their parts.
    pub fn share(&self) -> Result<Self, NoMemory>
        ensures { IfOk result (λ c. shared_of c ≡ shared_of self.now) }
    {
        Ok(SharedChain {
            root: self.root.copy()?,
            calls: self.calls.share()?,
        })
    }

    /// One call more. Constant.
    #[tactic(auto, using(crate::proofs::SharedCallSteps::one_more))]
    pub fn with_call(self, alloc: Global, call: MarkedCall) -> Result<Self, NoMemory>
        ensures { IfOk result (λ c. shared_of c ≡ record { root = (shared_of self).root; calls = (shared_of self).calls ++ marked_of call ∷ [] }) }
    {
        Ok(SharedChain {
            root: self.root,
            calls: self.calls.with_call(alloc, call)?,
        })
    }

    /// Whether it begins with `this`. Constant.
    pub fn is_this(&self) -> bool
        ensures { result ≡ is_this_root (shared_of self.now).root }
    {
        matches!(self.root, Root::This)
    }

    /// A chain with calls of its own. Linear in the calls.
    pub fn copy(&self, alloc: Global) -> Result<MarkedChain, NoMemory>
        ensures { IfOk result (λ c. marked_chain_of c ≡ shared_of self.now) }
    {
        let root = self.root.copy()?;
        let calls = self.calls.copy(alloc)?;
        Ok(MarkedChain { root, calls })
    }
}
