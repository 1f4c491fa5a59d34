//! What the text of a selector is, from left to right.
ghost use Rattle.std.specs.Prelude.{◌≡◌, [], ◌∷◌, ◌++◌, option_map, IfOk, OnOk};
ghost use Rattle.widen_sheet.specs.Views.{wide_view};
ghost use Rattle.widen_sheet.specs.Wide as spec;

use crate::grammar::token_at;
use std::alloc::Global;
use tp_base::NoMemory;

/// What a piece of a selector's text is.
#[derive(Clone, Copy, Debug, PartialEq, Eq)]
pub enum Kind {
    /// A part of a compound that is judged or dropped.
    Judged,
    /// Another part of a compound.
    Other,
    /// `a b`.
    Inside,
    /// `a > b`.
    Child,
    /// `a + b`.
    Next,
    /// `a ~ b`.
    Later,
}

/// A part of a compound, or a combinator with the blanks round it: the bytes of a text from `from` up to and without
/// `to`.
#[derive(Clone, Copy, Debug)]
pub struct Token {
    pub kind: Kind,
    pub from: usize,
    pub to: usize,
}

pub(crate) fn is_combinator(kind: Kind) -> bool
    ensures { result ≡ spec.is_combinator kind }
{
    !matches!(kind, Kind::Judged | Kind::Other)
}

// Puts a token behind others, and tells whether a compound is wanted behind it.
fn push_token(tokens: &mut Vec<Token>, token: Token) -> Result<bool, NoMemory>
    ensures tokens { OnOk result (tokens.new.items ≡ tokens.old.items ++ token ∷ []) }
    ensures wanted { IfOk result (λ b. b ≡ spec.is_combinator token.kind) }
{
    let wanted = is_combinator(token.kind);
    tokens.push(token)?;
    Ok(wanted)
}

/// The tokens of a selector, if its text is one. Linear in the text.
pub(crate) fn tokens_of(alloc: Global, text: &[u8]) -> Result<Option<Vec<Token>>, NoMemory>
    ensures { IfOk result (λ r. spec.wide_of text.now ≡ option_map (λ v. wide_view text.now v.items) r) }
{
    let mut tokens = Vec::new(alloc);
    let mut wanted = true;
    let mut rest = text;
    'tokens: while !rest.is_empty() {
        let Some((kind, behind)) = token_at(alloc, wanted, rest)? else {
            return Ok(None);
        };
        let token = Token {
            kind,
            from: text.len() - rest.len(),
            to: text.len() - behind.len(),
        };
        let joins = push_token(&mut tokens, token)?;
        wanted = joins;
        rest = behind;
    }
    if wanted {
        return Ok(None);
    }
    Ok(Some(tokens))
}
