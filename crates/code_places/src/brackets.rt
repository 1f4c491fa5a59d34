//! In which bracket each token stands.
ghost use Rattle.std.specs.Prelude.{◌≡◌, get_or, false, None, IfOk};
ghost use Rattle.code_places.specs.Enclosing as spec;

use code_tokens::Code;
use std::alloc::Global;
use tp_base::{Items, NoMemory};

/// What is known of the brackets of code.
#[derive(Drop)]
pub struct Brackets {
    /// For each token the number of the bracket that it stands in, if it stands in one.
    pub enclosing: Items<Option<usize>>,
    /// For each token whether it begins a pattern.
    pub patterns: Items<bool>,
    /// For each token whether it is `++` or `--`, or belongs to a member behind one.
    pub stepped: Items<bool>,
}

/// The number at a place, if one is there. Constant.
pub(crate) fn number_at(numbers: &[Option<usize>], at: usize) -> Option<usize>
    ensures { result ≡ get_or numbers.now at None }
{
    match numbers.get(at) {
        Some(number) => *number,
        None => None,
    }
}

/// The flag at a place, if one is there. Constant.
pub(crate) fn flag_at(flags: &[bool], at: usize) -> bool
    ensures { result ≡ get_or flags.now at false }
{
    match flags.get(at) {
        Some(flag) => *flag,
        None => false,
    }
}

fn bracket_of(known: &[Option<usize>], inner: Option<usize>, other: Option<usize>) -> Option<usize>
    ensures { result ≡ spec.bracket_of known.now inner other }
{
    match other {
        None => inner,
        Some(other) => {
            if other < known.len() {
                number_at(known, other)
            } else {
                inner
            }
        }
    }
}

fn bracket_behind(
    known: &[Option<usize>],
    inner: Option<usize>,
    other: Option<usize>,
) -> Option<usize>
    ensures { result ≡ spec.bracket_behind known.now inner other }
{
    match other {
        None => inner,
        Some(other) => {
            if other < known.len() {
                number_at(known, other)
            } else {
                Some(known.len())
            }
        }
    }
}

/// For each token the number of the bracket that it stands in. Linear in the code.
#[tactic(auto, unfolding(crate::specs::Enclosing::enclosing_from))]
pub(crate) fn enclosing(alloc: Global, code: &Code) -> Result<Vec<Option<usize>>, NoMemory>
    ensures { IfOk result (λ v. v.items ≡ spec.enclosing code.now) }
{
    let mut known = Vec::new(alloc);
    let mut inner = None;
    let mut rest = code.others.items();
    'tokens: while let Some((other, behind)) = rest.split_first() {
        let bracket = bracket_of(&known, inner, *other);
        inner = bracket_behind(&known, inner, *other);
        known.push(bracket)?;
        rest = behind;
    }
    Ok(known)
}
