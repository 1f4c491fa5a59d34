//! From bytes to tokens.
ghost use Rattle.std.specs.Prelude.{◌≡◌, ◌+◌, ◌++◌, if◌then◌else◌, [], ◌∷◌, OnOk, IfOk};
ghost use Rattle.code_scan.specs.Tokens as spec;
ghost use Rattle.code_scan.specs.Scans.{found_of};

use crate::fronts::front;
use crate::state::State;
use crate::token::{Front, Piece, Token, TokenKind};
use std::alloc::Global;
use text_bytes::behind_order_mark;
use tp_base::{Items, NoMemory};

/// The tokens of code, and the offsets at which it isn't sure what is meant.
#[derive(Drop)]
pub struct Scanned {
    pub tokens: Items<Token>,
    pub unread: Items<usize>,
}

// What a token is besides its kind.
#[derive(Clone, Copy)]
struct Span {
    from: usize,
    to: usize,
}

fn push(
    tokens: &mut Items<Token>,
    kind: TokenKind,
    span: Span,
    first_in_line: bool,
) -> Result<(), NoMemory>
    ensures { OnOk result (tokens.new ≡ tokens.old ++ spec.token kind span.from span.to first_in_line ∷ []) }
{
    tokens.push(Token {
        kind,
        from: span.from,
        to: span.to,
        first_in_line,
    })
}

// The bracket and the `+` that a hole of a template begins with.
fn push_opening(tokens: &mut Items<Token>, span: Span) -> Result<(), NoMemory>
    ensures { OnOk result (tokens.new ≡ tokens.old ++ spec.opening span.from span.to) }
{
    push(tokens, TokenKind::Plus, span, false)?;
    push(tokens, TokenKind::Open, span, false)
}

// The same that it ends with, and the text behind it.
fn push_closing(
    tokens: &mut Items<Token>,
    letters: Items<u8>,
    span: Span,
    first: bool,
) -> Result<(), NoMemory>
    ensures { OnOk result (tokens.new ≡ tokens.old ++ spec.closing letters span.from span.to first) }
{
    push(tokens, TokenKind::Close, span, first)?;
    push(tokens, TokenKind::Plus, span, false)?;
    push(tokens, TokenKind::Text(letters), span, false)
}

fn push_piece(
    tokens: &mut Items<Token>,
    piece: Piece,
    span: Span,
    first: bool,
) -> Result<(), NoMemory>
    ensures { OnOk result (tokens.new ≡ tokens.old ++ spec.tokens_of piece span.from span.to first) }
{
    match piece {
        Piece::Passed(_) => Ok(()),
        Piece::One(kind) => push(tokens, kind, span, first),
        Piece::Opened(letters) => {
            push(tokens, TokenKind::Text(letters), span, first)?;
            push_opening(tokens, span)
        }
        Piece::Shut(letters) => push_closing(tokens, letters, span, first),
        Piece::Reopened(letters) => {
            push_closing(tokens, letters, span, first)?;
            push_opening(tokens, span)
        }
    }
}

fn push_unsure(unread: &mut Items<usize>, sure: bool, at: usize) -> Result<(), NoMemory>
    ensures { OnOk result (unread.new ≡ unread.old ++ spec.unsure_at sure at) }
{
    if !sure {
        unread.push(at)?;
    }
    Ok(())
}

impl Scanned {
    fn none(alloc: Global) -> Scanned
        ensures { found_of result ≡ spec.nothing }
    {
        Scanned {
            tokens: Items::new(Vec::new(alloc)),
            unread: Items::new(Vec::new(alloc)),
        }
    }

    // Adds what stands at a place.
    #[tactic(auto, unfolding(crate::specs::Tokens::joined, crate::specs::Tokens::one_found))]
    fn push(&mut self, front: Front, span: Span, first: bool) -> Result<(), NoMemory>
        requires { span.to ≡ span.from + front.len }
        ensures { OnOk result (found_of self.new ≡ spec.joined (found_of self.old) (spec.one_found front span.from first)) }
    {
        push_unsure(&mut self.unread, front.sure, span.from)?;
        push_piece(&mut self.tokens, front.piece, span, first)
    }
}

/// The tokens of code, with a byte order mark at its front passed over. Linear in it, in time and in memory.
#[tactic(auto, using(crate::proofs::ScanSteps::goes_on, crate::proofs::ScanSteps::ends, crate::proofs::ScanSteps::begins, crate::proofs::ScanSteps::behind_mark_within))]
pub fn scan(alloc: Global, text: &[u8]) -> Result<Scanned, NoMemory>
    ensures exact { IfOk result (λ s. found_of s ≡ spec.found_in text.now) }
{
    let mut found = Scanned::none(alloc);
    let mut state = State::new(alloc);
    let mut rest = behind_order_mark(text);
    'fronts: while !rest.is_empty() {
        let from = text.len() - rest.len();
        let front = front(alloc, &state, rest)?;
        let (spelling, behind) = rest.split_at(front.len);
        let first = state.new_line;
        state.pass(&front.piece, spelling)?;
        let to = from + front.len;
        found.push(front, Span { from, to }, first)?;
        rest = behind;
    }
    Ok(found)
}
