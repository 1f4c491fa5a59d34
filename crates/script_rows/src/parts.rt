//! Parts of chains, with the name `a` bound to document or window.
ghost use Rattle.std.specs.Prelude.{length};
ghost use Rattle.js_scan.specs.Tokens.{InOrder};
ghost use Rattle.js_scan.specs.Utf8.{AreTexts};

use crate::words::{lettered, tokens_of};
use jq_chains::{MarkedChain, SharedChain};
use jq_cursor::{Cursor, Lists, Reader, spelled, text_argument};
use jq_forms::is_chain;
use jq_parts::{
    Bound, Declaration, Declarations, Grown, Scope, Value, is_bound, markup_argument, parameters,
    root, target,
};
use jq_stmts::Root;
use jq_words::{ScriptFault, Words, place};
use js_scan::Token;
use std::alloc::{AllocError, Global};
use std::rc::Rc;
use tp_base::{AtomTable, MOST_BYTES};

#[derive(Clone, Copy)]
pub(crate) enum OfParts {
    List,
    Begun,
    Argument,
    Grown,
    Aimed,
    Chained,
    Hidden,
}

/// What is read of a text's parts.
pub(crate) fn of_parts(alloc: Global, case: OfParts, text: &[u8]) -> Result<String, ScriptFault> {
    let tokens = tokens_of(alloc, text)?;
    of_tokens(alloc, case, text, &tokens)
}

fn of_tokens(
    alloc: Global,
    case: OfParts,
    text: &[u8],
    tokens: &[Token],
) -> Result<String, ScriptFault>
    requires in_order { InOrder 0 (length text.now) tokens.now }
    requires text { AreTexts text.now tokens.now }
{
    if text.len() > MOST_BYTES as usize {
        return Ok(String::from_str(alloc, "too large")?);
    }
    let lists = Lists::new(alloc, text, tokens)?;
    let reader = Reader {
        alloc,
        exact: false,
        text,
        declared: &[],
    };
    of_lists(reader, case, &lists)
}

fn of_lists(reader: Reader<'_>, case: OfParts, lists: &Lists<'_>) -> Result<String, ScriptFault> {
    let scope = scope(reader.alloc)?;
    answer(reader, case, &scope, Cursor::new(lists))
}

fn answer(
    reader: Reader<'_>,
    case: OfParts,
    scope: &Scope<'_>,
    words: Cursor<'_, '_>,
) -> Result<String, ScriptFault> {
    let alloc = reader.alloc;
    match case {
        OfParts::List => list(alloc, words),
        OfParts::Begun => begun(reader, scope, words),
        OfParts::Argument => argument(alloc, words),
        OfParts::Grown => grown(reader, words.words()),
        OfParts::Aimed => aimed(reader, scope, words.words()),
        OfParts::Chained => chained(alloc, scope, &words),
        OfParts::Hidden => hidden(alloc, words),
    }
}

fn declaration<'a>(alloc: Global) -> Result<Declaration<'a>, ScriptFault> {
    let bound = Bound {
        value: Value::Everywhere,
        under: Rc::new(alloc, Vec::new(alloc))?,
    };
    Ok(Declaration {
        name: b"a",
        bound: Some(Box::new(alloc, bound)?),
    })
}

fn scope<'a>(alloc: Global) -> Result<Scope<'a>, ScriptFault> {
    let mut declarations = Declarations::new(alloc);
    declarations.push(declaration(alloc)?)?;
    Ok(Scope {
        handlers: Vec::new(alloc),
        has_this: false,
        declarations,
    })
}

// The arguments of a call, whose name stands first: how many there are, whether they are whole, and where they end.
fn list(alloc: Global, mut words: Cursor<'_, '_>) -> Result<String, ScriptFault> {
    words.pass();
    let list = words.enclosed(alloc)?;
    let at = place(list.behind.words());
    Ok(format!(in alloc; "{} {} {at}", list.count, list.whole)?)
}

fn nothing_grown(alloc: Global) -> Grown {
    Grown {
        atoms: AtomTable::new(alloc),
        nodes: 0,
    }
}

fn kind_of(value: &Value) -> &'static str {
    match value {
        Value::Elements(_) => "elements",
        Value::Everywhere => "everywhere",
        Value::Markup(_) => "markup",
        Value::Placed => "placed",
    }
}

fn copied_kind(value: &Value) -> Result<&'static str, ScriptFault> {
    let copy = value.copy()?;
    Ok(kind_of(&copy))
}

// What a chain begins with, the nodes of its markup, and where the words behind it stand.
fn begun(
    reader: Reader<'_>,
    scope: &Scope<'_>,
    mut words: Cursor<'_, '_>,
) -> Result<String, ScriptFault> {
    let mut grown = nothing_grown(reader.alloc);
    let value = root(reader, 1, scope, &mut grown, &mut words)?;
    let kind = copied_kind(&value)?;
    let at = place(words.words());
    Ok(format!(in reader.alloc; "{kind} {} {at}", grown.nodes)?)
}

// The letters of an argument.
fn argument(alloc: Global, mut words: Cursor<'_, '_>) -> Result<String, ScriptFault> {
    let letters = text_argument(alloc, &mut words)?;
    lettered(alloc, Some(letters))
}

// How many nodes an argument that is markup has.
fn grown(reader: Reader<'_>, words: &Words<'_>) -> Result<String, ScriptFault> {
    let mut grown = nothing_grown(reader.alloc);
    let forest = markup_argument(reader, 1, words, &mut grown)?;
    let tops = forest.tops.items().len();
    Ok(format!(in reader.alloc; "{tops} {}", grown.nodes)?)
}

fn shared(
    reader: Reader<'_>,
    scope: &Scope<'_>,
    words: &Words<'_>,
) -> Result<SharedChain, ScriptFault> {
    let mut atoms = AtomTable::new(reader.alloc);
    target(reader, 1, scope, words, &mut atoms)
}

// The chain of a target.
fn aim(
    reader: Reader<'_>,
    scope: &Scope<'_>,
    words: &Words<'_>,
) -> Result<MarkedChain, ScriptFault> {
    let chain = shared(reader, scope, words)?;
    Ok(chain.copy(reader.alloc)?)
}

fn written(alloc: Global, root: &Root) -> Result<String, AllocError> {
    match root {
        Root::List(selectors) => format!(in alloc; "{}", selectors.items().len()),
        Root::This => String::from_str(alloc, "this"),
    }
}

// How many selectors a target has, or `this`.
fn aimed(reader: Reader<'_>, scope: &Scope<'_>, words: &Words<'_>) -> Result<String, ScriptFault> {
    let chain = aim(reader, scope, words)?;
    Ok(written(reader.alloc, &chain.root)?)
}

// Whether a value is a chain.
fn chained(
    alloc: Global,
    scope: &Scope<'_>,
    words: &Cursor<'_, '_>,
) -> Result<String, ScriptFault> {
    let bound = is_bound(&scope.declarations, spelled(words.words()));
    let answer = is_chain(alloc, false, bound, words)?;
    Ok(format!(in alloc; "{answer}")?)
}

fn behind_parameters<'a>(
    declarations: &mut Declarations<'a>,
    mut words: Cursor<'_, 'a>,
) -> Result<(usize, bool), ScriptFault> {
    parameters(1, declarations, &mut words)?;
    let bound = is_bound(declarations, b"a");
    Ok((declarations.len(), bound))
}

// How many declarations are seen behind parameters, and whether `a` is still bound.
fn hidden(alloc: Global, words: Cursor<'_, '_>) -> Result<String, ScriptFault> {
    let mut scope = scope(alloc)?;
    let (count, bound) = behind_parameters(&mut scope.declarations, words)?;
    Ok(format!(in alloc; "{count} {bound}")?)
}
