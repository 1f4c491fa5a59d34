//! Functions: the scope when one is entered, and when it is left.
ghost use Rattle.std.specs.Prelude.{◌≡◌, true, length, take, option_map, is_some, OnOk, OnErr, IfErr};
ghost use Rattle.jq_words.specs.declared.faults.ScriptFault.TheVariants.{Memory};
ghost use Rattle.jq_parts.specs.Views.{declarations_of};
ghost use Rattle.jq_parts.specs.ScopeViews.{handler_of, handlers_of, scope_of};
ghost use Rattle.jq_parts.specs.Scopes as spec;

use crate::scopes::{Handler, Scope};
use jq_words::ScriptFault;

/// Enters a function, which may be a handler. Constant on average. After a refusal the scope is as it was.
#[tactic(auto, using(crate::proofs::HandlerSteps::pushed))]
pub fn enter(handler: Option<Handler>, scope: &mut Scope<'_>) -> Result<(), ScriptFault>
    ensures handlers { OnOk result (handlers_of scope.new.handlers.items ≡ spec.with_handler (option_map handler_of handler) (handlers_of scope.old.handlers.items)) }
    ensures names_this { OnOk result (scope.new.has_this ≡ is_some (option_map handler_of handler)) }
    ensures declarations { OnOk result (scope.new.declarations ≡ scope.old.declarations) }
    ensures kept { OnErr result (scope_of scope.new ≡ scope_of scope.old) }
    ensures only_memory { IfErr result (λ e. e ≡ Memory) }
{
    match handler {
        None => {
            scope.has_this = false;
            Ok(())
        }
        Some(handler) => {
            scope.handlers.push(handler)?;
            scope.has_this = true;
            Ok(())
        }
    }
}

/// The number of declarations in scope. Constant.
#[tactic(auto, using(crate::proofs::HandlerSteps::as_many))]
pub fn count_seen(scope: &Scope<'_>) -> usize
    ensures { result ≡ length (declarations_of scope.now.declarations) }
{
    scope.declarations.len()
}

/// Leaves a function. The first `seen` declarations stay in scope, and the first `outer` handlers stay round the place. Linear in
/// the handlers and in the names that are dropped, on average.
#[tactic(auto, using(crate::proofs::HandlerSteps::cut, crate::proofs::HandlerSteps::declarations_cut))]
pub fn leave(seen: usize, outer: usize, had_this: bool, scope: &mut Scope<'_>)
    ensures handlers { handlers_of scope.new.handlers.items ≡ take outer (handlers_of scope.old.handlers.items) }
    ensures names_this { scope.new.has_this ≡ had_this }
    ensures declarations { declarations_of scope.new.declarations ≡ take seen (declarations_of scope.old.declarations) }
{
    scope.declarations.cut(seen);
    scope.handlers.truncate(outer);
    scope.has_this = had_this;
}
