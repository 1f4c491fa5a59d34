//! The stack of open brackets, with the arguments in each.
ghost use Rattle.std.specs.Prelude.{◌≡◌, ◌<◌, IfSome};
ghost use Rattle.jq_cursor.specs.Commas.{pending_in, with_comma};

use jq_words::{Bracket, Words};

/// The words from a call's bracket on, and how many commas its arguments have so far.
#[derive(Drop)]
pub(crate) struct Pending<'a> {
    pub(crate) list: Words<'a>,
    pub(crate) commas: usize,
}

/// A bracket that is open, and its arguments where they are to be noted. Small, since a script can have millions of open brackets.
#[derive(Drop)]
pub(crate) struct Open<'a> {
    pub(crate) bracket: Bracket,
    pub(crate) list: Option<Box<Pending<'a>>>,
}

/// One comma more.
pub(crate) fn and_comma(list: Option<Box<Pending<'_>>>) -> Option<Box<Pending<'_>>>
    requires { IfSome (pending_in list) (λ p. p.commas < usize.MAX) }
    ensures { pending_in result ≡ with_comma (pending_in list.entry) }
{
    let Some(mut pending) = list else {
        return None;
    };
    pending.commas += 1;
    Some(pending)
}
