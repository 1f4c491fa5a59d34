//! Values that are texts.
ghost use Rattle.std.specs.Prelude.{◌≡◌, ◌++◌, OnOk, IfOk};
ghost use Rattle.code_tokens.specs.Members.{is_text as says_text, letters_in as letters_said, letters_of};
ghost use Rattle.code_values.specs.Texts as spec;

use crate::outside::tokens_in;
use crate::script::Script;
use crate::spans::Span;
use code_scan::{Token, TokenKind, is_written};
use code_tokens::Code;
use std::alloc::Global;
use tp_base::{Items, NoMemory};

pub(crate) fn is_text(kind: &TokenKind) -> bool
    ensures { result ≡ says_text kind.now }
{
    matches!(kind, TokenKind::Text(_))
}

fn is_join(kind: &TokenKind) -> bool
    ensures { result ≡ spec.is_join kind.now }
{
    matches!(kind, TokenKind::Plus)
}

/// Whether a token is a `+`, written or of a template. Constant.
#[tactic(auto, unfolding(crate::specs::Texts::is_plus))]
pub(crate) fn is_plus(text: &[u8], token: &Token) -> bool
    ensures { spec.is_plus text.now token.now ≡ result }
{
    is_written(text, b"+", token) || is_join(&token.kind)
}

#[tactic(auto, unfolding(crate::specs::Texts::are_texts))]
fn are_texts(text: &[u8], tokens: &[Token]) -> bool
    ensures { spec.are_texts text.now tokens.now ≡ result }
{
    let mut rest = tokens;
    'pairs: while let Some((first, behind)) = rest.split_first() {
        if !is_text(&first.kind) {
            return false;
        }
        let Some((second, others)) = behind.split_first() else {
            return true;
        };
        if !is_plus(text, second) {
            return false;
        }
        rest = others;
    }
    false
}

/// Whether a range of tokens is Text { `+` Text }. Linear in it.
pub fn is_texts(script: &Script<'_>, span: Span) -> bool
    ensures { spec.is_texts script.now.text.now script.now.code.now span ≡ result }
{
    are_texts(script.text, tokens_in(script.code, span))
}

/// Adds the letters of a Text. Linear in these.
pub(crate) fn push_letters(letters: &mut Vec<u8>, kind: &TokenKind) -> Result<(), NoMemory>
    ensures { OnOk result (letters.new.items ≡ letters.old.items ++ letters_of kind.now) }
{
    if let TokenKind::Text(text) = kind {
        letters.extend_from_slice(text.items())?;
    }
    Ok(())
}

#[tactic(auto, using(crate::proofs::TextSteps::more_letters))]
fn letters_in(alloc: Global, tokens: &[Token]) -> Result<Vec<u8>, NoMemory>
    ensures { IfOk result (λ v. v.items ≡ letters_said tokens.now) }
{
    let mut letters = Vec::new(alloc);
    let mut rest = tokens;
    'tokens: while let Some((first, others)) = rest.split_first() {
        push_letters(&mut letters, &first.kind)?;
        rest = others;
    }
    Ok(letters)
}

/// What the Texts of a range say together. Linear in it.
pub fn joined_texts(alloc: Global, code: &Code, span: Span) -> Result<Items<u8>, NoMemory>
    ensures { IfOk result (λ v. v ≡ spec.joined_texts code.now span) }
{
    Ok(Items::new(letters_in(alloc, tokens_in(code, span))?))
}
