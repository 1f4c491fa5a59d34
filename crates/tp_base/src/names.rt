//! Names as a table keeps them.
ghost use Rattle.std.specs.Prelude.{◌≡◌, position};
ghost use Rattle.tp_base.specs.Names.{named, is_name};

use crate::atoms::AtomKind;

/// A name that owns its text.
#[derive(Debug, PartialEq, Eq, Hash, Drop)]
pub(crate) struct Name {
    pub(crate) kind: AtomKind,
    pub(crate) text: Vec<u8>,
}

/// The place of a name among others, by a look at each.
pub(crate) fn place_of(names: &[Name], kind: AtomKind, name: &[u8]) -> Option<usize>
    ensures { result ≡ position (λ known. is_name (kind, name.now) (named known)) names.now }
{
    names.iter().position(|known| is_named(known, kind, name))
}

fn is_named(known: &Name, kind: AtomKind, name: &[u8]) -> bool
    ensures { result ≡ is_name (kind, name.now) (named known.now) }
{
    kind == known.kind && name == known.text.as_slice()
}
