//! Marks, and what stands in them.
ghost use Rattle.std.specs.Prelude.{◌≡◌, Some, None, if◌then◌else◌, ◌++◌, slice_range, OnOk};
ghost use Rattle.widen_sheet.specs.Views.{wide_view, kinds_of};
ghost use Rattle.widen_sheet.specs.Wide as spec;

use crate::parts::between;
use crate::tokens::{Kind, Token, is_combinator};
use tp_base::NoMemory;

/// A kind of mark.
#[derive(Clone, Copy, Debug, PartialEq, Eq)]
pub enum Mark {
    /// Parts of a compound.
    Part,
    /// Compounds up to a sibling combinator. What stands on both sides is joined by a blank.
    Inside,
    /// The same, joined by `>`.
    Child,
}

pub(crate) fn is_sibling(kind: Kind) -> bool
    ensures { result ≡ spec.is_sibling kind }
{
    matches!(kind, Kind::Next | Kind::Later)
}

/// Whether the compound that these are the last of, and behind it the others, ends at a sibling combinator. Linear in
/// the compound.
pub(crate) fn goes(tokens: &[Token]) -> bool
    ensures { result ≡ spec.goes (kinds_of tokens.now) }
{
    let mut rest = tokens;
    'tokens: while let Some((token, later)) = rest.split_first() {
        if is_combinator(token.kind) {
            return is_sibling(token.kind);
        }
        rest = later;
    }
    false
}

// Whether the compound goes that is next behind a token, by whether the one goes that the token is in.
fn goes_behind(kind: Kind, gone: bool, later: &[Token]) -> bool
    requires { gone ≡ (if spec.is_combinator kind then spec.is_sibling kind else spec.goes (kinds_of later.now)) }
    ensures { result ≡ spec.goes (kinds_of later.now) }
{
    if is_combinator(kind) {
        goes(later)
    } else {
        gone
    }
}

fn run_behind(kind: Kind, run: Mark) -> Mark
    ensures { result ≡ spec.run_behind kind run }
{
    match kind {
        Kind::Child => Mark::Child,
        Kind::Inside => Mark::Inside,
        _ => run,
    }
}

// A mark where there is to be one.
fn mark_if(gone: bool, mark: Mark) -> Option<Mark>
    ensures { result ≡ (if gone then Some mark else None) }
{
    if gone { Some(mark) } else { None }
}

fn mark_of(run: Mark, kind: Kind, gone: bool) -> Option<Mark>
    ensures { result ≡ spec.mark_of run kind gone }
{
    match kind {
        Kind::Judged => mark_if(gone, run),
        Kind::Other => Some(if gone { run } else { Mark::Part }),
        Kind::Child => mark_if(gone, Mark::Child),
        Kind::Inside => mark_if(gone, Mark::Inside),
        Kind::Next | Kind::Later => Some(run),
    }
}

fn letter(mark: Mark) -> u8
    ensures { result ≡ spec.letter mark }
{
    match mark {
        Mark::Part => b'p',
        Mark::Inside => b'd',
        Mark::Child => b'c',
    }
}

/// What joins the compounds on both sides of a mark.
pub(crate) fn joint(mark: Mark) -> &'static [u8]
    ensures { result.now ≡ spec.joint mark }
{
    match mark {
        Mark::Part => b"",
        Mark::Inside => b" ",
        Mark::Child => b">",
    }
}

fn put_opening(out: &mut Vec<u8>, mark: Mark) -> Result<(), NoMemory>
    ensures { OnOk result (out.new.items ≡ out.old.items ++ spec.opening mark) }
{
    out.extend_from_slice(b":hover/*~")?;
    out.push(letter(mark))?;
    Ok(())
}

fn put_closing(out: &mut Vec<u8>, mark: Mark) -> Result<(), NoMemory>
    ensures { OnOk result (out.new.items ≡ out.old.items ++ spec.closing mark) }
{
    out.extend_from_slice(b"~*/:hover")?;
    out.extend_from_slice(joint(mark))?;
    Ok(())
}

// One mark's end, and another's beginning, unless it is the same one that goes on.
fn put_next(out: &mut Vec<u8>, one: Mark, next: Mark) -> Result<(), NoMemory>
    ensures { OnOk result (out.new.items ≡ out.old.items ++ spec.between (Some one) (Some next)) }
{
    if letter(one) == letter(next) {
        return Ok(());
    }
    put_closing(out, one)?;
    put_opening(out, next)
}

// What stands between two texts by their marks.
fn put_between(out: &mut Vec<u8>, prior: Option<Mark>, next: Option<Mark>) -> Result<(), NoMemory>
    ensures { OnOk result (out.new.items ≡ out.old.items ++ spec.between prior next) }
{
    match (prior, next) {
        (None, None) => Ok(()),
        (None, Some(next)) => put_opening(out, next),
        (Some(prior), None) => put_closing(out, prior),
        (Some(prior), Some(next)) => put_next(out, prior, next),
    }
}

// Puts the bytes between two offsets of a text behind another text.
fn put_text(out: &mut Vec<u8>, text: &[u8], from: usize, to: usize) -> Result<(), NoMemory>
    ensures { OnOk result (out.new.items ≡ out.old.items ++ slice_range text.now from to) }
{
    out.extend_from_slice(between(text, from, to))?;
    Ok(())
}

/// Puts the tokens of a text, with their marks, behind another text. Linear in what is put.
pub(crate) fn put_tokens(out: &mut Vec<u8>, text: &[u8], tokens: &[Token]) -> Result<(), NoMemory>
    ensures { OnOk result (out.new.items ≡ out.old.items ++ spec.spelled (wide_view text.now tokens.now)) }
{
    let mut prior = None;
    let mut run = Mark::Inside;
    let mut gone = goes(tokens);
    let mut rest = tokens;
    'tokens: while let Some((token, later)) = rest.split_first() {
        let behind = goes_behind(token.kind, gone, later);
        let mark = mark_of(run, token.kind, behind);
        put_between(out, prior, mark)?;
        put_text(out, text, token.from, token.to)?;
        let next = run_behind(token.kind, run);
        prior = mark;
        run = next;
        gone = behind;
        rest = later;
    }
    put_between(out, prior, None)
}
