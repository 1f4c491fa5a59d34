//! The parameters of a function.
ghost use Rattle.std.specs.Prelude.{◌≡◌, [], ◌∷◌, ◌++◌, OnOk, IfErr};
ghost use Rattle.jq_words.specs.Results.{Leaves, InFile, IsRest, IsBehind};
ghost use Rattle.jq_words.specs.declared.faults.ScriptFault.TheVariants.{Memory};
ghost use Rattle.jq_parts.specs.Parameters as spec;
ghost use Rattle.jq_parts.specs.Views.{declarations_of};

use crate::declarations::Declarations;
use crate::values::Declaration;
use jq_cursor::Cursor;
use jq_words::{ScriptFault, begins};

// Declares a parameter, which hides earlier declarations of its name.
#[tactic(auto, using(crate::proofs::ParameterSteps::one_hidden))]
fn hide<'a>(name: &'a [u8], declarations: &mut Declarations<'a>) -> Result<(), ScriptFault>
    ensures hidden { OnOk result (declarations_of declarations.new ≡ declarations_of declarations.old ++ spec.hidden name.now ∷ []) }
    ensures only_memory { IfErr result (λ e. e ≡ Memory) }
{
    let declaration = Declaration { name, bound: None };
    declarations.push(declaration)?;
    Ok(())
}

// Further parameters, each behind a comma.
#[tactic(auto, using(crate::proofs::ParameterSteps::goes_on, crate::proofs::ParameterSteps::fails, crate::proofs::ParameterSteps::ends, jq_words::proofs::Files::itself, jq_words::proofs::Files::behind_first, jq_words::proofs::Files::is_rest, jq_words::proofs::Files::of_rest))]
fn more_parameters<'a>(
    declarations: &mut Declarations<'a>,
    words: &mut Cursor<'_, 'a>,
) -> Result<(), ScriptFault>
    ensures gives { Leaves (declarations_of declarations.new, words.new.words) result (spec.more_parameters words.old.size (declarations_of declarations.old) words.old.words) }
    ensures rest { OnOk result (InFile IsRest words.old words.new) }
{
    'names: while begins(words.words(), b",") {
        words.pass();
        let name = words.want_name()?;
        hide(name, declarations)?;
    }
    Ok(())
}

/// Passes parameters in brackets. Each hides earlier declarations of its name. At most `room` brackets may still be opened. Linear in
/// the parameters and, on average, in their names.
#[tactic(auto, unfolding(crate::specs::Parameters::parameters, crate::specs::Parameters::named_parameters), using(jq_words::proofs::Files::passed, jq_words::proofs::Files::behind_behind, jq_words::proofs::Files::behind_rest))]
pub fn parameters<'a>(
    room: usize,
    declarations: &mut Declarations<'a>,
    words: &mut Cursor<'_, 'a>,
) -> Result<(), ScriptFault>
    ensures gives { Leaves (declarations_of declarations.new, words.new.words) result (spec.parameters words.old.size room (declarations_of declarations.old) words.old.words) }
    ensures rest { OnOk result (InFile IsBehind words.old words.new) }
{
    words.want_open(room, b"(")?;
    if begins(words.words(), b")") {
        words.pass();
        return Ok(());
    }
    let name = words.want_name()?;
    hide(name, declarations)?;
    more_parameters(declarations, words)?;
    words.want(b")")?;
    Ok(())
}
