//! Marks that write.
ghost use Rattle.std.specs.Prelude.{◌≡◌};
ghost use Rattle.code_places.specs.Writes as spec;

use crate::place::Write;
use crate::words::{begins, begins_mark};
use code_scan::{Token, is_written};

const WHOLE_MARKS: [&[u8]; 4] = [b"=", b"||=", b"&&=", b"??="];

const MADE_MARKS: [&[u8]; 4] = [b"+=", b"-=", b"++", b"--"];

const SIGNS: [&[u8]; 9] = [b"*", b"**", b"/", b"%", b"&", b"|", b"^", b"<", b">"];

const EQUALS: [&[u8]; 3] = [b"=", b"<=", b">="];

#[tactic(auto, unfolding(crate::specs::Writes::shifts))]
fn shifts(text: &[u8], tokens: &[Token]) -> bool
    ensures { spec.shifts text.now tokens.now ≡ result }
{
    match tokens.split_first() {
        None => false,
        Some((first, behind)) => is_written(text, b">", first) && begins(text, b">=", behind),
    }
}

#[tactic(auto, unfolding(crate::specs::Writes::begins_signed), using(crate::proofs::Marks::same_signs, crate::proofs::Marks::same_equals))]
fn begins_signed(text: &[u8], tokens: &[Token]) -> bool
    ensures { spec.begins_signed text.now tokens.now ≡ result }
{
    match tokens.split_first() {
        None => false,
        Some((_, behind)) => {
            begins_mark(text, &SIGNS, tokens)
                && (begins_mark(text, &EQUALS, behind) || shifts(text, behind))
        }
    }
}

/// How tokens behind a member write it, if they do. Constant.
#[tactic(auto, unfolding(crate::specs::Writes::write_of), using(crate::proofs::Marks::same_whole_marks, crate::proofs::Marks::same_made_marks))]
pub(crate) fn write_of(text: &[u8], tokens: &[Token]) -> Option<Write>
    ensures { spec.write_of text.now tokens.now ≡ result }
{
    if begins_mark(text, &WHOLE_MARKS, tokens) {
        Some(Write::Whole)
    } else if begins_mark(text, &MADE_MARKS, tokens) || begins_signed(text, tokens) {
        Some(Write::Made)
    } else {
        None
    }
}
