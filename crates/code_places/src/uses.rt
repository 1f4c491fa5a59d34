//! What is done with a name or a member.
ghost use Rattle.std.specs.Prelude.{◌≡◌};
ghost use Rattle.code_places.specs.Uses as spec;
ghost use Rattle.code_tokens.specs.Members.{is_text as says_text};

use crate::brackets::{Brackets, flag_at};
use crate::patterns::{begins_loop, begins_part_end, in_pattern};
use crate::place::{Use, Write};
use crate::script::Script;
use crate::words::{begins, tokens_behind};
use crate::writes::write_of;
use code_scan::{Token, TokenKind};

fn is_text(kind: &TokenKind) -> bool
    ensures { result ≡ says_text kind.now }
{
    matches!(kind, TokenKind::Text(_))
}

#[tactic(auto, unfolding(crate::specs::Uses::begins_text))]
fn begins_text(tokens: &[Token]) -> bool
    ensures { spec.begins_text tokens.now ≡ result }
{
    match tokens.split_first() {
        None => false,
        Some((first, _)) => is_text(&first.kind),
    }
}

#[tactic(auto, unfolding(crate::specs::Uses::takes))]
fn use_written(
    script: &Script<'_>,
    pattern: bool,
    stepped: bool,
    tokens: &[Token],
    write: Option<Write>,
) -> Use
    ensures { result ≡ spec.use_written script.now.text.now pattern stepped tokens.now write }
{
    match write {
        Some(write) => Use::Written(if pattern { Write::Made } else { write }),
        None => {
            let taken = pattern && begins_part_end(script.text, tokens)
                || begins_loop(script.text, tokens);
            if stepped || taken {
                Use::Written(Write::Made)
            } else {
                Use::Read
            }
        }
    }
}

#[tactic(auto, unfolding(crate::specs::Uses::use_of))]
fn use_of(script: &Script<'_>, pattern: bool, stepped: bool, tokens: &[Token]) -> Use
    ensures { spec.use_of script.now.text.now pattern stepped tokens.now ≡ result }
{
    if begins(script.text, b"(", tokens) {
        Use::Called
    } else if begins_text(tokens) {
        Use::Tagged
    } else {
        use_written(
            script,
            pattern,
            stepped,
            tokens,
            write_of(script.text, tokens),
        )
    }
}

/// What is done with what begins with one token and ends with another. Constant.
pub(crate) fn use_at(script: &Script<'_>, brackets: &Brackets, from: usize, to: usize) -> Use
    ensures { result ≡ spec.use_at script.now.text.now script.now.code.now brackets.now from to }
{
    let stepped = flag_at(brackets.stepped.items(), from);
    use_of(
        script,
        in_pattern(brackets, from),
        stepped,
        tokens_behind(script.code, to),
    )
}
