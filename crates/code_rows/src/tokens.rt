//! The tokens of code.
use code_scan::{TokenKind, words_of};
use code_tokens::{Code, read_code};
use row_text::push_pictured;
use std::alloc::{AllocError, Global};

/// The tokens of a row, with `^` before the first one of a line, the letters of a text in quotes, and behind a bracket the number of the
/// other one; and in a second line the offsets that aren't sure.
pub fn answer(alloc: Global, text: &[u8]) -> Result<String, AllocError> {
    let mut answer = String::new(alloc);
    match read_code(alloc, text) {
        Ok(code) => push_code(&mut answer, text, &code)?,
        Err(_) => answer.push_str("\n  no memory")?,
    }
    Ok(answer)
}

fn push_code(answer: &mut String, text: &[u8], code: &Code) -> Result<(), AllocError> {
    answer.push_str("\n ")?;
    for index in 0..code.tokens.items().len() {
        push_token(answer, text, code, index)?;
    }
    if !code.unread.items().is_empty() {
        answer.push_str("\n  unread")?;
    }
    for at in code.unread.items() {
        answer.push(' ')?;
        push_number(answer, *at)?;
    }
    Ok(())
}

fn push_token(
    answer: &mut String,
    text: &[u8],
    code: &Code,
    index: usize,
) -> Result<(), AllocError> {
    let Some(token) = code.tokens.items().get(index) else {
        return Ok(());
    };
    answer.push_str(if token.first_in_line { " ^" } else { " " })?;
    push_words(answer, &token.kind, words_of(text, token))?;
    if let Some(Some(other)) = code.others.items().get(index) {
        push_number(answer, *other)?;
    }
    Ok(())
}

fn push_words(answer: &mut String, kind: &TokenKind, words: &[u8]) -> Result<(), AllocError> {
    let quote = quote_of(kind);
    answer.push_str(quote)?;
    push_pictured(answer, words)?;
    answer.push_str(quote)
}

fn quote_of(kind: &TokenKind) -> &'static str {
    match kind {
        TokenKind::Text(_) => "'",
        _ => "",
    }
}

fn push_number(answer: &mut String, number: usize) -> Result<(), AllocError> {
    let digits = number.to_string(*answer.allocator())?;
    answer.push_str(digits.as_str())
}
