//! What stands at the tokens of code.
use code_places::{Brackets, Place, Script, Use, Write, place_at, read_brackets};
use code_scan::words_of;
use code_tokens::{Code, read_code};
use row_text::push_pictured;
use std::alloc::{AllocError, Global};
use tp_base::NoMemory;

/// Each name, text and computed member of a row, with a word for what it is there.
pub fn answer(alloc: Global, text: &[u8]) -> Result<String, AllocError> {
    let mut answer = String::new(alloc);
    match read(alloc, text) {
        Ok((code, brackets)) => push_code(&mut answer, &Script { text, code: &code }, &brackets)?,
        Err(_) => answer.push_str("\n  no memory")?,
    }
    Ok(answer)
}

fn read(alloc: Global, text: &[u8]) -> Result<(Code, Brackets), NoMemory> {
    let code = read_code(alloc, text)?;
    let brackets = read_brackets(alloc, &Script { text, code: &code })?;
    Ok((code, brackets))
}

fn push_code(
    answer: &mut String,
    script: &Script<'_>,
    brackets: &Brackets,
) -> Result<(), AllocError> {
    answer.push_str("\n ")?;
    for index in 0..script.code.tokens.items().len() {
        push_place(answer, script, index, place_at(script, brackets, index))?;
    }
    Ok(())
}

fn push_place(
    answer: &mut String,
    script: &Script<'_>,
    index: usize,
    place: Place,
) -> Result<(), AllocError> {
    let Some(token) = script.code.tokens.items().get(index) else {
        return Ok(());
    };
    let word = word_of(place);
    if word.is_empty() {
        return Ok(());
    }
    answer.push(' ')?;
    push_pictured(answer, words_of(script.text, token))?;
    answer.push(':')?;
    answer.push_str(word)
}

fn word_of(place: Place) -> &'static str {
    match place {
        Place::Member(used) => member_word(used),
        Place::Name(used) => name_word(used),
        Place::Index(used) => index_word(used),
        Place::Declared => "declared",
        Place::Key => "key",
        Place::Text => "text",
        Place::Word | Place::Other => "",
    }
}

fn member_word(used: Use) -> &'static str {
    match used {
        Use::Called => ".call",
        Use::Tagged => ".tagged",
        Use::Written(Write::Whole) => ".=",
        Use::Written(Write::Made) => ".made",
        Use::Read => ".read",
    }
}

fn name_word(used: Use) -> &'static str {
    match used {
        Use::Called => "call",
        Use::Tagged => "tagged",
        Use::Written(Write::Whole) => "=",
        Use::Written(Write::Made) => "made",
        Use::Read => "read",
    }
}

fn index_word(used: Use) -> &'static str {
    match used {
        Use::Called => "call",
        Use::Tagged => "tagged",
        Use::Written(Write::Whole) => "=",
        Use::Written(Write::Made) => "made",
        Use::Read => "read",
    }
}
