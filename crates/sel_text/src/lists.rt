//! Lists of selectors in a script.
ghost use Rattle.std.specs.Prelude.{◌≡◌, ◌<◌, ◌≤◌, length, map, All, IfOk};
ghost use Rattle.text_bytes.specs.Rests.{IsRest};
ghost use Rattle.sel_text.specs.Lists as spec;
ghost use Rattle.sel_text.specs.Readable.{IsReadable};
ghost use Rattle.sel_text.specs.Results.{Reads, IsFront};
ghost use Rattle.sel_text.specs.Views.{selector_of};

use crate::bytes::behind_close;
use crate::faults::SelFault;
use crate::grammar::attribute_part;
use crate::reading::read_piece;
use crate::selectors::Selector;
use std::alloc::Global;
use tp_base::AtomTable;

// The text behind the attribute part, the comment or the byte that a text begins with. Linear in what is passed, and in the attribute part that a `[`
// begins without being one.
#[tactic(auto, unfolding(crate::specs::Lists::behind_unit), using(text_bytes::proofs::Rests::of_rest, text_bytes::proofs::Rests::behind_first, text_bytes::proofs::Rests::dropped, text_bytes::proofs::Rests::itself))]
fn behind_unit(text: &[u8]) -> &[u8]
    ensures gives { result.now ≡ spec.behind_unit text.now }
    ensures rest { IsRest text.now result.now }
    ensures shorter { 0 < length text.now → length result.now < length text.now }
{
    let Some((first, behind)) = text.split_first() else {
        return text;
    };
    if *first == b'[' {
        return match attribute_part(behind) {
            Some((_, rest)) => rest,
            None => behind,
        };
    }
    if text.starts_with(b"/*") {
        behind_close(behind.split_at(1).1)
    } else {
        behind
    }
}

// The text from the first `,` outside attribute parts and comments on.
#[tactic(auto, using(crate::proofs::Commas::at_comma, crate::proofs::Commas::goes_on, crate::proofs::Commas::ends, text_bytes::proofs::Rests::of_rest))]
fn from_comma(text: &[u8]) -> &[u8]
    ensures gives { result.now ≡ spec.from_comma 0 text.now }
    ensures rest { IsRest text.now result.now }
{
    let mut rest = text;
    'turns: while let Some((first, _)) = rest.split_first() {
        if *first == b',' {
            return rest;
        }
        rest = behind_unit(rest);
    }
    rest
}

// The selector before the next comma, and the text from there on, in a list of `size` bytes.
#[tactic(auto, unfolding(crate::specs::Lists::first_piece))]
fn read_one<'a>(
    alloc: Global,
    size: usize,
    text: &'a [u8],
    atoms: &mut AtomTable,
) -> Result<(Selector, &'a [u8]), SelFault>
    requires { length text.now ≤ size }
    ensures reads { Reads (λ r. selector_of r.0) result atoms.new (spec.read_one (spec.first_piece size text.now) atoms.old) }
    ensures readable { IfOk result (λ r. IsReadable atoms.new (selector_of r.0)) }
    ensures behind { IfOk result (λ r. r.1.now ≡ spec.from_comma 0 text.now) }
    ensures rest { IfOk result (λ r. IsRest text.now r.1.now) }
    ensures front { IsFront atoms.old atoms.new }
{
    let rest = from_comma(text);
    let piece = text.split_at(text.len() - rest.len()).0;
    let selector = read_piece(alloc, false, size - rest.len(), piece, atoms)?;
    // a script can have millions of selectors, and a copy has no room to spare
    let exact = selector.copy()?;
    Ok((exact, rest))
}

/// Reads a list of selectors for a script: they are split at commas, and nothing is dropped, so each pseudo part is
/// a refusal. White space and comments may surround each. The names that were read before a refusal stay in the
/// table. Linear in the text.
#[tactic(auto, using(crate::proofs::ListSteps::begins, crate::proofs::ListSteps::first_fails, crate::proofs::ListSteps::goes_on, crate::proofs::ListSteps::fails, crate::proofs::ListSteps::ends, crate::proofs::Fronts::front_of_front, text_bytes::proofs::Rests::of_rest))]
pub fn read_strict_list(
    alloc: Global,
    text: &[u8],
    atoms: &mut AtomTable,
) -> Result<Vec<Selector>, SelFault>
    ensures reads { Reads (λ v. map selector_of v.items) result atoms.new (spec.read_strict_list text.now atoms.old) }
    ensures readable { IfOk result (λ v. All (λ s. IsReadable atoms.new (selector_of s)) v.items) }
    ensures front { IsFront atoms.old atoms.new }
{
    let mut found = Vec::new(alloc);
    let (selector, mut rest) = read_one(alloc, text.len(), text, atoms)?;
    found.push(selector)?;
    'commas: while let Some((_, behind)) = rest.split_first() {
        let (selector, left) = read_one(alloc, text.len(), behind, atoms)?;
        found.push(selector)?;
        rest = left;
    }
    Ok(found)
}
