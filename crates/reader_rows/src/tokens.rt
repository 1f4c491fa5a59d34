//! A script's tokens: each by its kind and its span, and a string by its letters too.
use js_scan::{Token, TokenKind, scan};
use std::alloc::{AllocError, Global};

pub(crate) fn tokens(alloc: Global, text: &[u8]) -> Result<String, AllocError> {
    match scan(alloc, text) {
        Ok(tokens) => listed(alloc, &tokens),
        Err(fault) => format!(in alloc; "\n  {fault:?}"),
    }
}

fn listed(alloc: Global, tokens: &[Token]) -> Result<String, AllocError> {
    let mut out = String::from_str(alloc, "\n ")?;
    for token in tokens {
        push_token(alloc, &mut out, token)?;
    }
    Ok(out)
}

fn push_token(alloc: Global, out: &mut String, token: &Token) -> Result<(), AllocError> {
    out.push_str(" ")?;
    push_kind(out, &token.kind)?;
    let span = format!(in alloc; "{}-{}", token.from, token.to)?;
    out.push_str(&span)
}

fn push_kind(out: &mut String, kind: &TokenKind) -> Result<(), AllocError> {
    match kind {
        TokenKind::Name => out.push_str("name "),
        TokenKind::Number => out.push_str("number "),
        TokenKind::Mark => out.push_str("mark "),
        TokenKind::Text(letters) => push_letters(out, letters.items()),
    }
}

fn push_letters(out: &mut String, letters: &[u8]) -> Result<(), AllocError> {
    out.push_str("text (")?;
    row_text::push_pictured(out, letters)?;
    out.push_str(") ")
}
