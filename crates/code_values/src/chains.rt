//! Chains of calls, what they are on, and values that are new.
ghost use Rattle.std.specs.Prelude.{◌≡◌, get_or, IfOk};
ghost use Rattle.std.specs.List.{list_any};
ghost use Rattle.code_scan.specs.Spellings.{words_of as words};
ghost use Rattle.text_bytes.specs.Attributes.{is_among as stands_among};
ghost use Rattle.code_values.specs.Chains as spec;

use crate::calls::{inside, is_spread, parts_of};
use crate::names::is_among;
use crate::objects::is_object;
use crate::outside::{begins, from_at, other_at, tokens_in};
use crate::script::Script;
use crate::spans::Span;
use crate::texts::{is_plus, is_texts};
use crate::values::is_chosen;
use code_scan::{Token, TokenKind, is_written, words_of};
use std::alloc::Global;
use text_bytes::blank_len;
use tp_base::{Items, NoMemory};

const JQUERY_NAMES: [&[u8]; 2] = [b"$", b"jQuery"];

const CREATIONS: [&[u8]; 4] = [
    b"createElement",
    b"createElementNS",
    b"createTextNode",
    b"createDocumentFragment",
];

// Calls that give the set that they are called on, or nodes within it.
const KEEPING: [&[u8]; 55] = [
    b"addClass",
    b"removeClass",
    b"toggleClass",
    b"append",
    b"prepend",
    b"appendTo",
    b"prependTo",
    b"insertAfter",
    b"insertBefore",
    b"removeAttr",
    b"removeProp",
    b"removeData",
    b"remove",
    b"detach",
    b"empty",
    b"show",
    b"hide",
    b"toggle",
    b"fadeIn",
    b"fadeOut",
    b"slideUp",
    b"slideDown",
    b"animate",
    b"stop",
    b"delay",
    b"on",
    b"off",
    b"one",
    b"bind",
    b"unbind",
    b"click",
    b"change",
    b"submit",
    b"keyup",
    b"keydown",
    b"keypress",
    b"focus",
    b"blur",
    b"hover",
    b"mouseenter",
    b"mouseleave",
    b"mousedown",
    b"mouseup",
    b"trigger",
    b"each",
    b"find",
    b"children",
    b"contents",
    b"first",
    b"last",
    b"eq",
    b"filter",
    b"not",
    b"has",
    b"end",
];

const SETTING: [&[u8]; 5] = [b"text", b"html", b"val", b"width", b"height"];

const PAIRING: [&[u8]; 4] = [b"attr", b"prop", b"css", b"data"];

const CONSTANTS: [&[u8]; 4] = [b"true", b"false", b"null", b"undefined"];

const DOCUMENT: [&[u8]; 1] = [b"document"];

const THIS: [&[u8]; 1] = [b"this"];

/// What a chain of calls is on.
#[derive(Clone, Copy, Debug, PartialEq, Eq)]
pub enum Origin {
    /// New nodes of a call of jQuery.
    NewSet,
    /// A node of `document.createElement(..)` and the like.
    NewNode,
    /// Nodes of the page.
    OfPage,
    /// Anything.
    Unknown,
}

/// A chain of calls.
#[derive(Clone, Copy, Debug, PartialEq, Eq)]
pub struct Chain {
    /// The number of its first token.
    pub from: usize,
    pub origin: Origin,
}

// ---- names

// A list of names that is looked for.
#[derive(Clone, Copy, Debug, PartialEq, Eq)]
pub(crate) enum Names {
    Jquery,
    Creations,
    Keeping,
    Setting,
    Pairing,
    Constants,
    Document,
    This,
}

#[tactic(auto, using(crate::proofs::Words::same_jquery_names, crate::proofs::Words::same_creations, crate::proofs::Words::same_keeping, crate::proofs::Words::same_setting, crate::proofs::Words::same_pairing, crate::proofs::Words::same_constants, crate::proofs::Words::same_document, crate::proofs::Words::same_this))]
fn has_name(names: Names, name: &[u8]) -> bool
    ensures { result ≡ stands_among (spec.names_of names) name.now }
{
    match names {
        Names::Jquery => is_among(&JQUERY_NAMES, name),
        Names::Creations => is_among(&CREATIONS, name),
        Names::Keeping => is_among(&KEEPING, name),
        Names::Setting => is_among(&SETTING, name),
        Names::Pairing => is_among(&PAIRING, name),
        Names::Constants => is_among(&CONSTANTS, name),
        Names::Document => is_among(&DOCUMENT, name),
        Names::This => is_among(&THIS, name),
    }
}

fn is_name(kind: &TokenKind) -> bool
    ensures { result ≡ spec.is_name kind.now }
{
    matches!(kind, TokenKind::Name)
}

fn is_number(kind: &TokenKind) -> bool
    ensures { result ≡ spec.is_number kind.now }
{
    matches!(kind, TokenKind::Number)
}

fn names_member(kind: &TokenKind) -> bool
    ensures { result ≡ spec.names_member kind.now }
{
    matches!(kind, TokenKind::Name | TokenKind::Member(_))
}

fn is_asking(kind: &TokenKind) -> bool
    ensures { result ≡ spec.is_asking kind.now }
{
    matches!(kind, TokenKind::Dot)
}

// ---- what stands at a place

#[tactic(auto, unfolding(crate::specs::Chains::begins_name))]
fn begins_name(text: &[u8], names: Names, tokens: &[Token]) -> bool
    ensures { spec.begins_name text.now names tokens.now ≡ result }
{
    match tokens.split_first() {
        None => false,
        Some((first, _)) => is_name(&first.kind) && has_name(names, words_of(text, first)),
    }
}

#[tactic(auto, unfolding(crate::specs::Chains::begins_member))]
fn begins_member(text: &[u8], names: Names, tokens: &[Token]) -> bool
    ensures { spec.begins_member text.now names tokens.now ≡ result }
{
    match tokens.split_first() {
        None => false,
        Some((first, _)) => names_member(&first.kind) && has_name(names, words_of(text, first)),
    }
}

#[tactic(auto, unfolding(crate::specs::Chains::begins_dot))]
fn begins_dot(text: &[u8], tokens: &[Token]) -> bool
    ensures { spec.begins_dot text.now tokens.now ≡ result }
{
    match tokens.split_first() {
        None => false,
        Some((first, _)) => {
            is_asking(&first.kind)
                || is_written(text, b".", first)
                || is_written(text, b"?.", first)
        }
    }
}

fn is_called(script: &Script<'_>, names: Names, at: usize) -> bool
    ensures { spec.calls script.now.text.now script.now.code.now names at ≡ result }
{
    begins_name(
        script.text,
        names,
        from_at(script.code, at.saturating_sub(1)),
    )
}

fn is_called_member(script: &Script<'_>, names: Names, at: usize) -> bool
    ensures { spec.calls_member script.now.text.now script.now.code.now names at ≡ result }
{
    begins_member(
        script.text,
        names,
        from_at(script.code, at.saturating_sub(1)),
    ) && begins_dot(script.text, from_at(script.code, at.saturating_sub(2)))
}

#[tactic(auto, unfolding(crate::specs::Chains::is_jquery))]
fn is_jquery(script: &Script<'_>, at: usize) -> bool
    ensures { spec.is_jquery script.now.text.now script.now.code.now at ≡ result }
{
    is_called(script, Names::Jquery, at)
        && !begins_dot(script.text, from_at(script.code, at.saturating_sub(2)))
}

#[tactic(auto, unfolding(crate::specs::Chains::is_creation))]
fn is_creation(script: &Script<'_>, at: usize) -> bool
    ensures { spec.is_creation script.now.text.now script.now.code.now at ≡ result }
{
    is_called_member(script, Names::Creations, at)
        && begins_name(
            script.text,
            Names::Document,
            from_at(script.code, at.saturating_sub(3)),
        )
}

// ---- what a chain is on

fn is_less(b: u8) -> bool
    ensures { result ≡ spec.is_less b }
{
    b == b'<'
}

fn has_less(letters: &[u8]) -> bool
    ensures { result ≡ list_any spec.is_less letters.now }
{
    letters.iter().any(|b| is_less(*b))
}

#[tactic(auto, unfolding(crate::specs::Chains::is_selector))]
fn is_selector(letters: &[u8]) -> bool
    ensures { spec.is_selector letters.now ≡ result }
{
    !has_less(letters) && blank_len(letters) != letters.len()
}

#[tactic(auto, unfolding(crate::specs::Chains::begins_tag))]
fn begins_tag(letters: &[u8]) -> bool
    ensures { spec.begins_tag letters.now ≡ result }
{
    match letters.split_first() {
        None => false,
        Some((first, _)) => is_less(*first),
    }
}

fn origin_of_text(letters: &[u8]) -> Origin
    ensures { spec.origin_of_text letters.now ≡ result }
{
    if begins_tag(letters) {
        Origin::NewSet
    } else if is_selector(letters) {
        Origin::OfPage
    } else {
        Origin::Unknown
    }
}

#[tactic(auto, unfolding(crate::specs::Chains::is_last))]
fn is_last(text: &[u8], tokens: &[Token]) -> bool
    ensures { spec.is_last text.now tokens.now ≡ result }
{
    match tokens.split_first() {
        None => false,
        Some((first, _)) => is_written(text, b",", first) || is_written(text, b")", first),
    }
}

#[tactic(auto, unfolding(crate::specs::Chains::goes_on))]
fn goes_on(text: &[u8], tokens: &[Token]) -> bool
    ensures { spec.goes_on text.now tokens.now ≡ result }
{
    match tokens.split_first() {
        None => false,
        Some((first, _)) => {
            is_plus(text, first) || is_written(text, b",", first) || is_written(text, b")", first)
        }
    }
}

fn origin_of_this(text: &[u8], words: &[u8], behind: &[Token]) -> Origin
    ensures { spec.origin_of_this text.now words.now behind.now ≡ result }
{
    if has_name(Names::This, words) && is_last(text, behind) {
        Origin::OfPage
    } else {
        Origin::Unknown
    }
}

fn origin_of_joined(text: &[u8], letters: &[u8], behind: &[Token]) -> Origin
    ensures { spec.origin_of_joined text.now letters.now behind.now ≡ result }
{
    if goes_on(text, behind) {
        origin_of_text(letters)
    } else {
        Origin::Unknown
    }
}

fn origin_of_first(text: &[u8], first: &Token, behind: &[Token]) -> Origin
    ensures { spec.origin_of_kind text.now first.now.kind (words text.now first.now) behind.now ≡ result }
{
    match &first.kind {
        TokenKind::Text(letters) => origin_of_joined(text, letters.items(), behind),
        TokenKind::Name => origin_of_this(text, words_of(text, first), behind),
        _ => Origin::Unknown,
    }
}

#[tactic(auto, unfolding(crate::specs::Chains::origin_of_tokens))]
fn origin_of_tokens(script: &Script<'_>, tokens: &[Token]) -> Origin
    ensures { spec.origin_of_tokens script.now.text.now tokens.now ≡ result }
{
    match tokens.split_first() {
        None => Origin::Unknown,
        Some((first, behind)) => origin_of_first(script.text, first, behind),
    }
}

#[tactic(auto, unfolding(crate::specs::Chains::origin_of_call))]
fn origin_of_call(script: &Script<'_>, at: usize) -> Origin
    ensures { spec.origin_of_call script.now.text.now script.now.code.now at ≡ result }
{
    let arguments = inside(script.code, at);
    if is_chosen(script, arguments) {
        Origin::Unknown
    } else {
        origin_of_tokens(script, from_at(script.code, arguments.from))
    }
}

// ---- chains

fn no_chain() -> Chain
    ensures { result ≡ spec.no_chain }
{
    Chain {
        from: 0,
        origin: Origin::Unknown,
    }
}

// With a call that gives nodes of the same kind.
fn with_call(before: Chain) -> Chain
    ensures { result ≡ spec.with_call before before.origin }
{
    match before.origin {
        Origin::NewSet | Origin::OfPage => before,
        Origin::NewNode | Origin::Unknown => no_chain(),
    }
}

fn chain_in(chains: &[Chain], at: usize) -> Chain
    ensures { result ≡ get_or chains.now at spec.no_chain }
{
    match chains.get(at) {
        Some(chain) => *chain,
        None => no_chain(),
    }
}

#[tactic(auto, unfolding(crate::specs::Chains::has_one))]
fn has_one(script: &Script<'_>, spans: &[Span]) -> bool
    ensures { spec.has_one script.now.text.now script.now.code.now spans.now ≡ result }
{
    match spans.split_first() {
        None => false,
        Some((first, _)) => !is_spread(script, *first),
    }
}

#[tactic(auto, unfolding(crate::specs::Chains::has_two))]
fn has_two(script: &Script<'_>, spans: &[Span]) -> bool
    ensures { spec.has_two script.now.text.now script.now.code.now spans.now ≡ result }
{
    let Some((first, behind)) = spans.split_first() else {
        return false;
    };
    match behind.split_first() {
        None => is_object(script, *first),
        Some((second, _)) => { !(is_spread(script, *first) || is_spread(script, *second)) }
    }
}

// Whether the call of a bracket gives nodes of what it is called on.
#[tactic(auto, unfolding(crate::specs::Chains::keeps))]
fn is_kept(alloc: Global, script: &Script<'_>, at: usize) -> Result<bool, NoMemory>
    ensures { IfOk result (λ b. spec.keeps script.now.text.now script.now.code.now at ≡ b) }
{
    if is_called_member(script, Names::Keeping, at) {
        Ok(true)
    } else if is_called_member(script, Names::Setting, at) {
        let spans = parts_of(alloc, script, inside(script.code, at))?;
        Ok(has_one(script, &spans))
    } else if is_called_member(script, Names::Pairing, at) {
        let spans = parts_of(alloc, script, inside(script.code, at))?;
        Ok(has_two(script, &spans))
    } else {
        Ok(false)
    }
}

fn continued(is_kept: bool, before: &[Chain], at: usize) -> Chain
    ensures { result ≡ spec.continued is_kept before.now at }
{
    if is_kept {
        with_call(chain_in(before, at.saturating_sub(3)))
    } else {
        no_chain()
    }
}

#[tactic(auto, unfolding(crate::specs::Chains::chain_at))]
fn chain_at(
    alloc: Global,
    script: &Script<'_>,
    before: &[Chain],
    at: usize,
) -> Result<Chain, NoMemory>
    ensures { IfOk result (λ c. spec.chain_at script.now.text.now script.now.code.now before.now at ≡ c) }
{
    if is_jquery(script, at) {
        return Ok(Chain {
            from: at.saturating_sub(1),
            origin: origin_of_call(script, at),
        });
    }
    if is_creation(script, at) {
        return Ok(Chain {
            from: at.saturating_sub(3),
            origin: Origin::NewNode,
        });
    }
    Ok(continued(is_kept(alloc, script, at)?, before, at))
}

#[tactic(auto, unfolding(crate::specs::Chains::next_chain))]
fn next_chain(
    alloc: Global,
    script: &Script<'_>,
    before: &[Chain],
    tokens: &[Token],
) -> Result<Chain, NoMemory>
    ensures { IfOk result (λ c. spec.next_chain script.now.text.now script.now.code.now before.now tokens.now ≡ c) }
{
    if !begins(script.text, b")", tokens) {
        return Ok(no_chain());
    }
    match other_at(script.code, before.len()) {
        None => Ok(no_chain()),
        Some(at) => chain_at(alloc, script, before, at),
    }
}

/// For each token the chain of calls that ends with it. Linear in the code.
#[tactic(auto, unfolding(crate::specs::Chains::chains_from))]
pub fn chains_of(alloc: Global, script: &Script<'_>) -> Result<Items<Chain>, NoMemory>
    ensures { IfOk result (λ v. v ≡ spec.chains script.now.text.now script.now.code.now) }
{
    let mut chains = Vec::new(alloc);
    let mut rest = script.code.tokens.items();
    'tokens: while let Some((_, behind)) = rest.split_first() {
        let chain = next_chain(alloc, script, &chains, rest)?;
        chains.push(chain)?;
        rest = behind;
    }
    Ok(Items::new(chains))
}

// ---- new

#[tactic(auto, unfolding(crate::specs::Chains::is_constant))]
fn is_constant(text: &[u8], tokens: &[Token]) -> bool
    ensures { spec.is_constant text.now tokens.now ≡ result }
{
    match tokens.split_first() {
        None => false,
        Some((first, behind)) => {
            behind.is_empty()
                && (is_number(&first.kind)
                    || is_name(&first.kind) && has_name(Names::Constants, words_of(text, first)))
        }
    }
}

/// What a value is on that is one chain, by the chains of the code. Constant.
pub fn origin_of(chains: &[Chain], span: Span) -> Origin
    ensures { result ≡ spec.origin_of chains.now span }
{
    let chain = chain_in(chains, span.to.saturating_sub(1));
    if span.from < span.to && chain.from == span.from {
        chain.origin
    } else {
        Origin::Unknown
    }
}

fn is_new_origin(origin: Origin) -> bool
    ensures { result ≡ spec.is_new_origin origin }
{
    matches!(origin, Origin::NewSet | Origin::NewNode)
}

/// Whether a value can bring in no node of the page and no markup from elsewhere. Linear in the value where it is texts.
pub fn is_new(script: &Script<'_>, chains: &[Chain], span: Span) -> bool
    ensures { spec.is_new script.now.text.now script.now.code.now chains.now span ≡ result }
{
    is_texts(script, span)
        || is_constant(script.text, tokens_in(script.code, span))
        || is_new_origin(origin_of(chains, span))
}

/// What the chain before the name of a member is on, by the chains of the code. Constant.
#[tactic(auto, unfolding(crate::specs::Chains::origin_before))]
pub fn origin_before(script: &Script<'_>, chains: &[Chain], at: usize) -> Origin
    ensures { spec.origin_before script.now.text.now script.now.code.now chains.now at ≡ result }
{
    if at >= 2 && begins_dot(script.text, from_at(script.code, at - 1)) {
        chain_in(chains, at - 2).origin
    } else {
        Origin::Unknown
    }
}
