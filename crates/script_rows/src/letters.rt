//! What is read of letters alone, and the places of statements in a text.
ghost use Rattle.std.specs.List.{AllByRecursion};
ghost use Rattle.std.specs.Prelude.{ℕ, List, map, IfOk};
ghost use Rattle.jq_parts.specs.ScopeViews.{stated_in};
ghost use Rattle.jq_parts.specs.Stating.{IsCounted};

use crate::places::exact_places;
use jq_chains::MarkedChain;
use jq_cursor::{class_set, compounds, selectors};
use jq_parts::{Stated, placed};
use jq_stmts::Root;
use jq_words::ScriptFault;
use std::alloc::{AllocError, Global};
use tp_base::{AtomTable, ClassSet, MOST_BYTES};
use tree_sem::Action;

#[derive(Clone, Copy)]
pub(crate) enum OfLetters {
    Chosen,
    Standing,
}

/// What is read of letters.
pub(crate) fn of_letters(
    alloc: Global,
    case: OfLetters,
    text: &[u8],
) -> Result<String, ScriptFault> {
    match case {
        OfLetters::Chosen => chosen(alloc, text),
        OfLetters::Standing => standing(alloc, text),
    }
}

fn selector_count(alloc: Global, text: &[u8], atoms: &mut AtomTable) -> Result<usize, ScriptFault> {
    let list = selectors(alloc, 1, text, atoms)?;
    Ok(list.len())
}

fn compound_count(alloc: Global, text: &[u8], atoms: &mut AtomTable) -> Result<usize, ScriptFault> {
    let single = compounds(alloc, 2, text, atoms)?;
    Ok(single.len())
}

fn class_count(alloc: Global, text: &[u8], atoms: &mut AtomTable) -> Result<usize, ScriptFault> {
    let classes = class_set(alloc, 3, text, atoms)?;
    Ok(classes.len())
}

fn counts(alloc: Global, text: &[u8], atoms: &mut AtomTable) -> Result<String, ScriptFault> {
    let list = selector_count(alloc, text, atoms)?;
    let single = compound_count(alloc, text, atoms)?;
    let classes = class_count(alloc, text, atoms)?;
    Ok(format!(in alloc; "{list} {single} {classes}")?)
}

// How many selectors, compounds and classes letters have.
fn chosen(alloc: Global, text: &[u8]) -> Result<String, ScriptFault> {
    let mut atoms = AtomTable::new(alloc);
    counts(alloc, text, &mut atoms)
}

// A statement on `this`, the name of whose action stands at an offset.
#[tactic(auto, using(crate::proofs::Counts::bare_counted))]
fn acting(alloc: Global, at: usize) -> Stated
    ensures counted { (text : List ℕ) → IsCounted (stated_in text result) }
{
    Stated {
        at,
        handlers: Vec::new(alloc),
        chain: MarkedChain {
            root: Root::This,
            calls: Vec::new(alloc),
        },
        action: Action::Classes(ClassSet::new(alloc)),
    }
}

fn statements(alloc: Global, size: usize) -> Result<Vec<Stated>, AllocError>
    ensures counted { (text : List ℕ) → IfOk result (λ v. AllByRecursion IsCounted (map (stated_in text) v.items)) }
{
    let first = acting(alloc, size);
    let second = acting(alloc, 1);
    let third = acting(alloc, usize::MAX);
    let all = vec![in alloc; first, second, third]?;
    Ok(all)
}

// The places of statements at the end of a text, at its second byte, and behind its end.
fn standing(alloc: Global, text: &[u8]) -> Result<String, ScriptFault> {
    if text.len() > MOST_BYTES as usize {
        return Err(ScriptFault::Memory);
    }
    let statements = statements(alloc, text.len())?;
    let placed = placed(alloc, text, statements)?;
    Ok(exact_places(alloc, &placed)?)
}
