//! The stack of open brackets.
ghost use Rattle.std.specs.Prelude.{◌≡◌, reverse, OnOk};
ghost use Rattle.css_read.specs.Units as spec;

use std::alloc::AllocError;

/// A kind of bracket.
#[derive(Clone, Copy, Debug, PartialEq, Eq)]
pub(crate) enum Bracket {
    Round,
    Square,
    Curly,
}

fn opened(byte: u8) -> Option<Bracket>
    ensures { result ≡ spec.opened byte }
{
    match byte {
        b'(' => Some(Bracket::Round),
        b'[' => Some(Bracket::Square),
        b'{' => Some(Bracket::Curly),
        _ => None,
    }
}

fn closed(byte: u8) -> Option<Bracket>
    ensures { result ≡ spec.closed byte }
{
    match byte {
        b')' => Some(Bracket::Round),
        b']' => Some(Bracket::Square),
        b'}' => Some(Bracket::Curly),
        _ => None,
    }
}

/// Updates the stack of open brackets, the innermost last, after a byte. Constant on average.
#[tactic(auto, unfolding(crate::specs::Units::after_byte), using(tp_base::proofs::Lists::pushed_last, tp_base::proofs::Lists::popped_last))]
pub(crate) fn track(brackets: &mut Vec<Bracket>, byte: u8) -> Result<(), AllocError>
    ensures { OnOk result (reverse brackets.new.items ≡ spec.after_byte byte (reverse brackets.old.items)) }
{
    if let Some(bracket) = opened(byte) {
        brackets.push(bracket)?;
    } else if let Some(bracket) = closed(byte) {
        if brackets.last() == Some(&bracket) {
            let _ = brackets.pop();
        }
    }
    Ok(())
}
