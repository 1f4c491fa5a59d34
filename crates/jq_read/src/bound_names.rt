//! The value at a place whose first word may be a name that is bound to a chain.
ghost use Rattle.std.specs.Prelude.{◌≡◌, is_some, IfOk, IfErr};
ghost use Rattle.jq_words.specs.Words.{spelled};
ghost use Rattle.jq_words.specs.declared.faults.ScriptFault.TheVariants.{Memory};
ghost use Rattle.jq_forms.specs.Openings as openings;
ghost use Rattle.jq_forms.specs.Values as values;
ghost use Rattle.jq_parts.specs.Bindings.{bound};
ghost use Rattle.jq_parts.specs.Views.{declarations_of};

use crate::readings::Reading;
use jq_cursor::spelled;
use jq_forms::{StatementForm, form_of, is_chain};
use jq_parts::is_bound;
use jq_words::ScriptFault;

/// Whether the first word is a name that is bound to a chain.
pub(crate) fn is_bound_here(reading: &Reading<'_, '_>) -> bool
    ensures { is_some (bound (spelled reading.now.words.words) (declarations_of reading.now.scope.declarations)) ≡ result }
{
    is_bound(&reading.scope.declarations, spelled(reading.words.words()))
}

/// What a statement is.
pub(crate) fn form_here(reading: &Reading<'_, '_>) -> StatementForm
    ensures { openings.form_of (is_some (bound (spelled reading.now.words.words) (declarations_of reading.now.scope.declarations))) reading.now.words.words ≡ result }
{
    form_of(is_bound_here(reading), reading.words.words())
}

/// Whether a declared value is a chain.
pub(crate) fn is_chain_here(reading: &Reading<'_, '_>) -> Result<bool, ScriptFault>
    ensures gives { IfOk result (λ b. values.is_chain reading.now.reader.exact (is_some (bound (spelled reading.now.words.words) (declarations_of reading.now.scope.declarations))) reading.now.words.words ≡ b) }
    ensures only_memory { IfErr result (λ e. e ≡ Memory) }
{
    let bound = is_bound_here(reading);
    is_chain(
        reading.reader.alloc,
        reading.reader.exact,
        bound,
        &reading.words,
    )
}
