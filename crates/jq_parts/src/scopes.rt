//! Scopes: the handlers and declarations at a place of a script.
ghost use Rattle.std.specs.Prelude.{◌≡◌, bytes_eq, is_some, IsUtf8};
ghost use Rattle.jq_words.specs.Results.{Gives};
ghost use Rattle.jq_parts.specs.Bindings.{bound};
ghost use Rattle.jq_parts.specs.Scopes as spec;
ghost use Rattle.jq_parts.specs.Views.{value_of, declarations_of};
ghost use Rattle.jq_parts.specs.ScopeViews.{handlers_of, scope_of};

use crate::declarations::Declarations;
use crate::values::Value;
use jq_chains::SharedChain;
use jq_words::{ScriptFault, letters};
use std::alloc::Global;

/// The chain of a handler's elements, and the offset at which its function begins.
#[derive(Drop)]
pub struct Handler {
    pub chain: SharedChain,
    pub at: usize,
}

/// The handlers round a place, outermost first, and the declarations in scope there. `has_this` says whether `this` names the node
/// of the innermost handler.
#[derive(Drop)]
pub struct Scope<'a> {
    pub handlers: Vec<Handler>,
    pub has_this: bool,
    pub declarations: Declarations<'a>,
}

/// Whether `under` lists the offsets of the handlers, in order. Linear in the handlers.
pub fn same_places(under: &[usize], handlers: &[Handler]) -> bool
    ensures { result ≡ bytes_eq under.now (spec.places_of (handlers_of handlers.now)) }
{
    let mut left = under;
    let mut others = handlers;
    'places: while let Some((first, behind)) = left.split_first() {
        let Some((handler, more)) = others.split_first() else {
            return false;
        };
        if *first != handler.at {
            return false;
        }
        left = behind;
        others = more;
    }
    others.is_empty()
}

/// The value of a name that is used at an offset. A look-up, and a copy where the value is markup. Other values are shared.
#[tactic(auto, unfolding(crate::specs::Scopes::used, crate::specs::Bindings::bound))]
pub fn used(alloc: Global, scope: &Scope<'_>, name: &[u8], at: usize) -> Result<Value, ScriptFault>
    requires text { IsUtf8 name.now }
    ensures { Gives value_of result (spec.used (scope_of scope.now) name.now at) }
{
    let Some(declaration) = scope.declarations.latest(name) else {
        return Err(ScriptFault::UnboundName(letters(alloc, name)?, at));
    };
    let Some(bound) = &declaration.bound else {
        return Err(ScriptFault::UnboundName(letters(alloc, name)?, at));
    };
    if bound.value.is_this() && !same_places(bound.under.as_slice(), &scope.handlers) {
        return Err(ScriptFault::ThisOutside(at));
    }
    Ok(bound.value.copy()?)
}

/// Whether a name is bound to a chain. A look-up.
#[tactic(auto, unfolding(crate::specs::Bindings::bound))]
pub fn is_bound(declarations: &Declarations<'_>, name: &[u8]) -> bool
    ensures { is_some (bound name.now (declarations_of declarations.now)) ≡ result }
{
    match declarations.latest(name) {
        None => false,
        Some(declaration) => declaration.bound.is_some(),
    }
}
