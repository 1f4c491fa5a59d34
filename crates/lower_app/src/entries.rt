//! Lines, before they are written.
ghost use Rattle.std.specs.Prelude.{◌≡◌, ◌++◌, IfOk, OnOk};
ghost use Rattle.std.specs.Fmt.{decimal};
ghost use Rattle.lower_app.specs.Entries as spec;
ghost use Rattle.lower_app.specs.Calls.{call_text};

use crate::given::{Call, Entry, Form, Kind, Origin};
use crate::lines::{kind_word, push_count};
use crate::quoting::push_quoted;
use std::alloc::Global;
use tp_base::{Items, NoMemory};

#[tactic(auto, using(crate::proofs::LineSteps::three, crate::proofs::LineSteps::five))]
fn push_call(line: &mut Vec<u8>, call: &Call) -> Result<(), NoMemory>
    ensures { OnOk result (line.new.items ≡ line.old.items ++ call_text call.now) }
{
    match call {
        Call::Classes(words) => {
            line.extend_from_slice(b"addClass(")?;
            push_quoted(line, words.items())?;
        }
        Call::Attribute(name, value) => {
            line.extend_from_slice(b"attr(")?;
            push_quoted(line, name.items())?;
            line.extend_from_slice(b", ")?;
            push_quoted(line, value.items())?;
        }
        Call::Tag(text) => {
            line.extend_from_slice(b"append(")?;
            push_quoted(line, text.items())?;
        }
    }
    line.extend_from_slice(b")")?;
    Ok(())
}

/// A statement from a place. Linear in it.
pub fn statement(
    alloc: Global,
    call: &Call,
    is_any_name: bool,
    origin: Origin,
) -> Result<Entry, NoMemory>
    ensures { IfOk result (λ e. e ≡ spec.statement call.now is_any_name origin) }
{
    let mut key = Vec::new(alloc);
    push_call(&mut key, call)?;
    Ok(Entry {
        form: Form::Given(is_any_name),
        key: Items::new(key),
        origin,
    })
}

#[tactic(auto, using(crate::proofs::LineSteps::three))]
fn push_origin(key: &mut Vec<u8>, origin: Origin) -> Result<(), NoMemory>
    ensures { OnOk result (key.new.items ≡ key.old.items ++ spec.origin_key origin) }
{
    push_count(key, origin.file)?;
    key.extend_from_slice(b":")?;
    push_count(key, origin.at)?;
    Ok(())
}

fn push_subject(key: &mut Vec<u8>, name: &[u8], origin: Origin) -> Result<(), NoMemory>
    ensures { OnOk result (key.new.items ≡ key.old.items ++ spec.subject name.now origin) }
{
    if name.is_empty() {
        push_origin(key, origin)?;
    } else {
        key.extend_from_slice(name)?;
    }
    Ok(())
}

/// An assumption at a place: of the function of this name, or, where there is none, of the place. Linear in the name.
#[tactic(auto, unfolding(crate::specs::Entries::assumption))]
pub fn assumption(alloc: Global, kind: Kind, name: &[u8], origin: Origin) -> Result<Entry, NoMemory>
    ensures { IfOk result (λ e. e ≡ spec.assumption kind name.now origin) }
{
    let mut key = Vec::from_slice(alloc, kind_word(kind))?;
    key.extend_from_slice(b" ")?;
    push_subject(&mut key, name, origin)?;
    Ok(Entry {
        form: Form::Assumed(kind),
        key: Items::new(key),
        origin,
    })
}
