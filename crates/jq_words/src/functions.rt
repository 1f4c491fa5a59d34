//! The names of the functions that a script declares anywhere.
ghost use Rattle.std.specs.Prelude.{◌≡◌, ◌∷◌, ◌++◌, map, OnOk, IfOk, IfErr};
ghost use Rattle.jq_words.specs.Functions as spec;
ghost use Rattle.jq_words.specs.Views.{listed};
ghost use Rattle.jq_words.specs.declared.faults.ScriptFault.TheVariants.{Memory};

use crate::faults::ScriptFault;
use crate::words::{Words, begins, begins_name};
use std::alloc::Global;

// The name that stands behind `function`, where the words begin so.
#[tactic(auto, using(crate::proofs::NameSteps::no_function, crate::proofs::NameSteps::no_second, crate::proofs::NameSteps::no_name, crate::proofs::NameSteps::behind))]
fn behind_function<'a>(words: &Words<'a>) -> Option<&'a [u8]>
    ensures { spec.behind_function words.now.words ≡ listed result }
{
    if !begins_name(words, b"function") {
        return None;
    }
    let Some(name) = words.behind().first() else {
        return None;
    };
    if !name.is_any_name() {
        return None;
    }
    Some(name.spelling())
}

// The name that stands before `=` and `function`, where the words begin so.
#[tactic(auto, using(crate::proofs::NameSteps::none_before, crate::proofs::NameSteps::other_before, crate::proofs::NameSteps::other_mark, crate::proofs::NameSteps::other_function, crate::proofs::NameSteps::before))]
fn before_function<'a>(words: &Words<'a>) -> Option<&'a [u8]>
    ensures { spec.before_function words.now.words ≡ listed result }
{
    let Some(name) = words.first() else {
        return None;
    };
    if !name.is_any_name() {
        return None;
    }
    let mark = words.behind();
    if !begins(&mark, b"=") {
        return None;
    }
    if !begins_name(&mark.behind(), b"function") {
        return None;
    }
    Some(name.spelling())
}

// Adds a name, if there is one.
#[tactic(auto, using(crate::proofs::NameSteps::pushed, crate::proofs::NameSteps::not_pushed))]
fn note<'a>(found: &mut Vec<&'a [u8]>, name: Option<&'a [u8]>) -> Result<(), ScriptFault>
    ensures noted { OnOk result (map (λ k. k.now) found.new.items ≡ map (λ k. k.now) found.old.items ++ listed name.entry) }
    ensures only_memory { IfErr result (λ e. e ≡ Memory) }
{
    if let Some(name) = name {
        found.push(name)?;
    }
    Ok(())
}

/// The names of the functions that some words declare.
#[tactic(auto, using(crate::proofs::NameSteps::one_more, crate::proofs::NameSteps::ends))]
pub fn declared_in<'a>(alloc: Global, words: &Words<'a>) -> Result<Vec<&'a [u8]>, ScriptFault>
    ensures gives { IfOk result (λ v. map (λ k. k.now) v.items ≡ spec.declared_in words.now.words) }
    ensures only_memory { IfErr result (λ e. e ≡ Memory) }
{
    let mut found = Vec::new(alloc);
    let mut rest = words.again();
    'words: while let Some(_word) = rest.first() {
        note(&mut found, behind_function(&rest))?;
        note(&mut found, before_function(&rest))?;
        rest.pass();
    }
    Ok(found)
}
