//! The scanner, from bytes to tokens.
ghost use Rattle.std.specs.Prelude.{◌≡◌, ◌+◌, ◌≤◌, ◌<◌, ◌++◌, length, All, IfOk, OnOk, IfErr, IsUtf8};
ghost use Rattle.js_scan.specs.Tokens as spec;
ghost use Rattle.js_scan.specs.Utf8.{TextBehindAscii, AreTexts};
ghost use Rattle.js_scan.specs.Views.{Gives};

use crate::bytes::{begins_name, is_quote, name_len, number_len};
use crate::comments::{behind_close, line_len};
use crate::marks::mark_len;
use crate::texts::text_letters;
use crate::token::{ScanFault, Token, TokenKind};
use bstr::ByteSlice;
use std::alloc::Global;
use text_bytes::{behind_order_mark, is_blank};

// A text behind its opening quote, which stands at `at`.
#[tactic(auto, unfolding(crate::specs::Tokens::text_front))]
fn text_front(
    alloc: Global,
    quote: u8,
    behind: &[u8],
    at: usize,
) -> Result<(Option<TokenKind>, usize), ScanFault>
    requires text { IsUtf8 behind.now }
    ensures gives { Gives (λ f. f) result (spec.text_front quote behind.now at) }
    ensures within { IfOk result (λ f. (1 ≤ f.1) × (f.1 ≤ length behind.now + 1)) }
{
    let (letters, rest) = text_letters(alloc, quote, at, behind)?;
    Ok((
        Some(TokenKind::Text(letters)),
        1 + behind.len() - rest.len(),
    ))
}

// A comment behind its `/*`.
#[tactic(auto, unfolding(crate::specs::Tokens::block_comment))]
fn block_comment(behind: &[u8], at: usize) -> Result<(Option<TokenKind>, usize), ScanFault>
    ensures gives { Gives (λ f. f) result (spec.block_comment behind.now at) }
    ensures within { IfOk result (λ f. (1 ≤ f.1) × (f.1 ≤ length behind.now + 2)) }
{
    let rest = behind_close(behind).ok_or(ScanFault::BadByte(at))?;
    Ok((None, 2 + behind.len() - rest.len()))
}

// What begins with a slash: a comment, or a mark where a slash divides.
#[tactic(auto, unfolding(crate::specs::Tokens::slash))]
fn slash(divides: bool, behind: &[u8], at: usize) -> Result<(Option<TokenKind>, usize), ScanFault>
    ensures gives { Gives (λ f. f) result (spec.slash divides behind.now at) }
    ensures within { IfOk result (λ f. (1 ≤ f.1) × (f.1 ≤ length behind.now + 1)) }
{
    if behind.starts_with(b"/") {
        Ok((None, 1 + line_len(behind)))
    } else if behind.starts_with(b"*") {
        block_comment(behind.split_at(1).1, at)
    } else if divides {
        Ok((Some(TokenKind::Mark), 1))
    } else {
        Err(ScanFault::Regexp(at))
    }
}

#[tactic(auto, unfolding(crate::specs::Tokens::mark_front))]
fn mark_front(text: &[u8], at: usize) -> Result<(Option<TokenKind>, usize), ScanFault>
    ensures gives { Gives (λ f. f) result (spec.mark_front text.now at) }
    ensures within { IfOk result (λ f. (1 ≤ f.1) × (f.1 ≤ length text.now)) }
{
    let len = mark_len(text).ok_or(ScanFault::BadByte(at))?;
    Ok((Some(TokenKind::Mark), len))
}

// What stands at the front, which is the place `at` of the file, and its length.
#[tactic(auto, unfolding(crate::specs::Tokens::front))]
fn front(
    alloc: Global,
    divides: bool,
    text: &[u8],
    at: usize,
) -> Result<(Option<TokenKind>, usize), ScanFault>
    requires text { TextBehindAscii text.now }
    ensures gives { Gives (λ f. f) result (spec.front divides text.now at) }
    ensures within { IfOk result (λ f. (1 ≤ f.1) × (f.1 ≤ length text.now)) }
{
    let Some((first, behind)) = text.split_first() else {
        return Err(ScanFault::BadByte(at));
    };
    if is_blank(*first) {
        Ok((None, 1))
    } else if begins_name(*first) {
        Ok((Some(TokenKind::Name), 1 + name_len(behind)))
    } else if first.is_ascii_digit() {
        Ok((Some(TokenKind::Number), 1 + number_len(behind)))
    } else if is_quote(*first) {
        text_front(alloc, *first, behind, at)
    } else if *first == b'/' {
        slash(divides, behind, at)
    } else {
        mark_front(text, at)
    }
}

fn divides_behind(kind: &TokenKind, spelling: &[u8]) -> bool
    ensures { result ≡ spec.divides_behind kind.now spelling.now }
{
    match kind {
        TokenKind::Name => {
            !(spelling == b"return".as_slice() || spelling == b"typeof".as_slice())
        }
        TokenKind::Mark => {
            spelling == b")".as_slice()
                || spelling == b"]".as_slice()
                || spelling == b"}".as_slice()
        }
        TokenKind::Number | TokenKind::Text(_) => true,
    }
}

// Whether a slash divides behind this front.
#[tactic(auto, unfolding(crate::specs::Tokens::divides_next))]
fn divides_next(kind: &Option<TokenKind>, spelling: &[u8], divides: bool) -> bool
    ensures { result ≡ spec.divides_next kind.now spelling.now divides }
{
    match kind {
        Some(kind) => divides_behind(kind, spelling),
        None => divides,
    }
}

// Adds a token where there is one.
fn put(
    found: &mut Vec<Token>,
    kind: Option<TokenKind>,
    from: usize,
    to: usize,
) -> Result<(), ScanFault>
    ensures added { OnOk result (found.new.items ≡ found.old.items ++ spec.tokens_of kind from to) }
    ensures only_memory { IfErr result (λ e. e ≡ ScanFault.Memory) }
{
    if let Some(kind) = kind {
        found.push(Token { kind, from, to })?;
    }
    Ok(())
}

#[tactic(auto, using(crate::proofs::TokensLemmas::goes_on, crate::proofs::TokensLemmas::fails, crate::proofs::TokensLemmas::ends, crate::proofs::TokensLemmas::begins, crate::proofs::TokensLemmas::stays_in_order, crate::proofs::Utf8Lemmas::behind_cut, crate::proofs::Utf8Lemmas::behind_rest))]
fn tokens(alloc: Global, text: &[u8]) -> Result<Vec<Token>, ScanFault>
    requires text { TextBehindAscii text.now }
    ensures exact { Gives (λ v. v.items) result (spec.tokens text.now) }
    ensures in_order { IfOk result (λ v. spec.InOrder 0 (length text.now) v.items) }
{
    let mut found = Vec::new(alloc);
    let mut divides = false;
    let mut rest = behind_order_mark(text);
    'tokens: while !rest.is_empty() {
        let start = text.len() - rest.len();
        let (kind, len) = front(alloc, divides, rest, start)?;
        let (spelling, behind) = rest.split_at(len);
        divides = divides_next(&kind, spelling, divides);
        put(&mut found, kind, start, start + len)?;
        rest = behind;
    }
    Ok(found)
}

/// The tokens of a script file, with a byte order mark at its front passed over. Linear in the file, in time
/// and in memory.
#[tactic(auto, using(text_bytes::proofs::Utf8::valid_len, crate::proofs::Utf8Lemmas::behind_ascii, crate::proofs::Spelling::all_spelled, crate::proofs::TokenTexts::all_texts))]
pub fn scan(alloc: Global, text: &[u8]) -> Result<Vec<Token>, ScanFault>
    ensures exact { Gives (λ v. v.items) result (spec.script_tokens text.now) }
    ensures in_order { IfOk result (λ v. spec.InOrder 0 (length text.now) v.items) }
    ensures spelled { IfOk result (λ v. All (spec.IsSpelled text.now) v.items) }
    ensures text { IfOk result (λ v. AreTexts text.now v.items) }
{
    match text.to_str() {
        Err(e) => Err(ScanFault::NotUtf8(e.valid_up_to())),
        Ok(_) => tokens(alloc, text),
    }
}
