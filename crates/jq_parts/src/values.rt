//! The values of chains, and the names that are bound to them.
ghost use Rattle.std.specs.Prelude.{◌≡◌, map, IfOk};
ghost use Rattle.sel_text.specs.Views.{selector_of};
ghost use Rattle.jq_parts.specs.Scopes as spec;
ghost use Rattle.jq_chains.specs.SharedChains.{shared_of};
ghost use Rattle.jq_parts.specs.Views.{value_of};

use jq_chains::SharedChain;
use jq_stmts::{Root, Selectors};
use sel_text::Selector;
use std::alloc::Global;
use std::rc::Rc;
use tp_base::NoMemory;
use tree_sem::Forest;

/// The value of a chain, as far as it was read.
#[derive(Drop)]
pub enum Value {
    Elements(SharedChain),
    /// Document or window.
    Everywhere,
    /// Markup that is still to be placed.
    Markup(Forest),
    /// Markup that was placed. No call may follow.
    Placed,
}

impl Value {
    /// A copy of the value. Linear in markup, else constant.
    pub fn copy(&self) -> Result<Value, NoMemory>
        ensures { IfOk result (λ v. value_of v ≡ value_of self.now) }
    {
        match self {
            Value::Elements(chain) => Ok(Value::Elements(chain.share()?)),
            Value::Everywhere => Ok(Value::Everywhere),
            Value::Markup(forest) => Ok(Value::Markup(forest.copy()?)),
            Value::Placed => Ok(Value::Placed),
        }
    }

    /// Whether the value is a chain that begins with `this`. Constant.
    pub fn is_this(&self) -> bool
        ensures { result ≡ spec.is_this (value_of self.now) }
    {
        match self {
            Value::Elements(chain) => chain.is_this(),
            _ => false,
        }
    }
}

/// The value to which a name is bound, and the offsets of the handlers round its declaration. Several declarations share the
/// offsets.
#[derive(Drop)]
pub struct Bound {
    pub value: Value,
    pub under: Rc<Vec<usize>>,
}

/// A name, with its value if it is bound to a chain. It is small, since a script can have millions of declarations.
#[derive(Drop)]
pub struct Declaration<'a> {
    pub name: &'a [u8],
    pub bound: Option<Box<Bound>>,
}

/// The chain that begins with the selectors and has no calls. Constant.
pub fn matched(alloc: Global, selectors: Vec<Selector>) -> Result<SharedChain, NoMemory>
    ensures { IfOk result (λ c. shared_of c ≡ spec.matched_chain (map selector_of selectors.items)) }
{
    SharedChain::new(alloc, Root::List(Selectors::new(selectors)?))
}

/// The chain that begins with `this` and has no calls. Constant.
pub fn this_chain(alloc: Global) -> Result<SharedChain, NoMemory>
    ensures { IfOk result (λ c. shared_of c ≡ spec.this_chain) }
{
    SharedChain::new(alloc, Root::This)
}
