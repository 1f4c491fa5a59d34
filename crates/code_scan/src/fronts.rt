//! What stands at a place of code.
ghost use Rattle.std.specs.Prelude.{◌≡◌, ◌≤◌, ◌+◌, ◌∷◌, false, length, IfOk};
ghost use Rattle.text_bytes.specs.Rests.{IsRest};
ghost use Rattle.code_scan.specs.Fronts as spec;
ghost use Rattle.code_scan.specs.Views.{quoted_of, state_of};

use crate::blanks::wide_blank;
use crate::comments::{begins_comment, block_comment, html_comment, line_comment};
use crate::lines::begins_break;
use crate::marks::mark_front;
use crate::names::behind_name;
use crate::regexes::behind_regex;
use crate::state::{Before, State};
use crate::texts::{Ending, Quoted, read_quoted};
use crate::token::{Front, Piece, TokenKind};
use js_scan::{begins_name, is_quote, number_len};
use std::alloc::Global;
use text_bytes::is_blank;
use tp_base::{Items, NoMemory};

fn sure_front(piece: Piece, len: usize) -> Front
    ensures gives { result ≡ spec.sure_front piece len }
    ensures long { result.len ≡ len }
{
    Front {
        piece,
        len,
        sure: true,
    }
}

fn is_cut(ending: Ending) -> bool
    ensures { result ≡ spec.is_cut ending }
{
    matches!(ending, Ending::Cut)
}

fn text_piece(ending: Ending, letters: Items<u8>) -> Piece
    ensures { result ≡ spec.text_piece ending letters }
{
    match ending {
        Ending::Hole => Piece::Opened(letters),
        _ => Piece::One(TokenKind::Text(letters)),
    }
}

fn hole_piece(ending: Ending, letters: Items<u8>) -> Piece
    ensures { result ≡ spec.hole_piece ending letters }
{
    match ending {
        Ending::Hole => Piece::Reopened(letters),
        _ => Piece::Shut(letters),
    }
}

// A text behind its opening quote.
fn text_front(alloc: Global, quote: u8, behind: &[u8]) -> Result<Front, NoMemory>
    ensures gives { IfOk result (λ f. spec.text_front behind.now (spec.read_quoted quote behind.now) ≡ f) }
    ensures within { IfOk result (λ f. (1 ≤ f.len) × (f.len ≤ length behind.now + 1)) }
{
    let text = read_quoted(alloc, quote, behind)?;
    Ok(Front {
        len: 1 + behind.len() - text.rest.len(),
        sure: text.sure && !is_cut(text.ending),
        piece: text_piece(text.ending, text.letters),
    })
}

// The part of a template behind the `}` of a hole.
fn hole_front(alloc: Global, behind: &[u8]) -> Result<Front, NoMemory>
    ensures gives { IfOk result (λ f. spec.hole_front behind.now (spec.read_quoted 96 behind.now) ≡ f) }
    ensures within { IfOk result (λ f. (1 ≤ f.len) × (f.len ≤ length behind.now + 1)) }
{
    let text = read_quoted(alloc, b'`', behind)?;
    Ok(Front {
        len: 1 + behind.len() - text.rest.len(),
        sure: text.sure && !is_cut(text.ending),
        piece: hole_piece(text.ending, text.letters),
    })
}

// A regular expression behind its slash, or the slash where none ends on the line.
fn regex_front(sure: bool, behind: &[u8]) -> Front
    ensures gives { result ≡ spec.regex_front sure behind.now (spec.behind_regex false false behind.now) }
    ensures within { (1 ≤ result.len) × (result.len ≤ length behind.now + 1) }
{
    match behind_regex(behind) {
        None => Front {
            piece: Piece::One(TokenKind::Mark),
            len: 1,
            sure: false,
        },
        Some(rest) => Front {
            piece: Piece::One(TokenKind::Regex),
            len: 1 + behind.len() - behind_name(rest).len(),
            sure,
        },
    }
}

// A slash that begins no comment.
#[tactic(auto, unfolding(crate::specs::Fronts::lone_slash))]
fn lone_slash(before: Before, behind: &[u8]) -> Front
    ensures gives { spec.lone_slash before behind.now ≡ result }
    ensures within { (1 ≤ result.len) × (result.len ≤ length behind.now + 1) }
{
    match before {
        Before::Value => sure_front(Piece::One(TokenKind::Mark), 1),
        Before::Block => Front {
            piece: Piece::One(TokenKind::Mark),
            len: 1,
            sure: false,
        },
        Before::Operator | Before::Dot => regex_front(true, behind),
        Before::Keyword | Before::Head => regex_front(false, behind),
    }
}

// What begins with a slash.
#[tactic(auto, unfolding(crate::specs::Fronts::slash))]
fn slash(before: Before, behind: &[u8]) -> Front
    ensures gives { spec.slash before behind.now ≡ result }
    ensures within { (1 ≤ result.len) × (result.len ≤ length behind.now + 1) }
{
    if behind.starts_with(b"/") {
        line_comment(behind, true)
    } else if behind.starts_with(b"*") {
        block_comment(behind.split_at(1).1)
    } else {
        lone_slash(before, behind)
    }
}

// A name behind its first byte.
fn name_front(behind: &[u8]) -> Front
    ensures gives { result ≡ spec.name_front behind.now }
    ensures within { (1 ≤ result.len) × (result.len ≤ length behind.now + 1) }
{
    let len = 1 + behind.len() - behind_name(behind).len();
    sure_front(Piece::One(TokenKind::Name), len)
}

// A byte that begins neither a name of ASCII nor a number, a text, a comment or a slash.
#[tactic(auto, unfolding(crate::specs::Fronts::rare_front))]
fn rare_front(first: u8, behind: &[u8], text: &[u8]) -> Front
    requires { text.now ≡ first ∷ behind.now }
    ensures gives { spec.rare_front first behind.now ≡ result }
    ensures within { (1 ≤ result.len) × (result.len ≤ length behind.now + 1) }
{
    match wide_blank(text) {
        Some(len) => sure_front(Piece::Passed(begins_break(text)), len),
        None if first >= 128 => name_front(behind),
        None => mark_front(first, text),
    }
}

/// What stands at the front of a text behind a state. Linear in it.
#[tactic(auto, unfolding(crate::specs::Fronts::front))]
pub(crate) fn front(alloc: Global, state: &State, text: &[u8]) -> Result<Front, NoMemory>
    ensures gives { IfOk result (λ f. spec.front (state_of state.now) text.now ≡ f) }
    ensures within { IfOk result (λ f. f.len ≤ length text.now) }
    ensures some { 1 ≤ length text.now → IfOk result (λ f. 1 ≤ f.len) }
{
    let Some((first, behind)) = text.split_first() else {
        return Ok(sure_front(Piece::Passed(false), 0));
    };
    if is_blank(*first) {
        Ok(sure_front(Piece::Passed(begins_break(text)), 1))
    } else if begins_name(*first) {
        Ok(name_front(behind))
    } else if first.is_ascii_digit() {
        let len = 1 + number_len(behind);
        Ok(sure_front(Piece::One(TokenKind::Number), len))
    } else if is_quote(*first) {
        text_front(alloc, *first, behind)
    } else if *first == b'/' {
        Ok(slash(state.before, behind))
    } else if *first == b'}' && state.brackets.is_in_hole() {
        hole_front(alloc, behind)
    } else if begins_comment(state.new_line, text) {
        Ok(html_comment(*first == b'<', behind))
    } else {
        Ok(rare_front(*first, behind, text))
    }
}
