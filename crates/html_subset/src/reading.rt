//! Reading a page or markup: each token goes to the tree builder.
ghost use Rattle.std.specs.Prelude.{◌≤◌, length, option_map, All, IfOk};
ghost use Rattle.text_bytes.specs.OrderMark as order_mark;
ghost use Rattle.tree_sem.specs.Nodes.{IsTreeOver};
ghost use Rattle.html_subset.specs.Builders.{Stands, Takes, GoesOn};
ghost use Rattle.html_subset.specs.Machine as machine;
ghost use Rattle.html_subset.specs.Pages.{page_of, forest_of};
ghost use Rattle.html_subset.specs.Reading as spec;
ghost use Rattle.html_subset.specs.Results.{IsFront, Reads};
ghost use Rattle.html_tokens.specs.Tokens.{tokens};
ghost use Rattle.html_tokens.specs.Views.{token_of};

use crate::builder::Builder;
use crate::faults::PageFault;
use bstr::ByteSlice;
use html_tokens::{Token, next};
use std::alloc::Global;
use text_bytes::behind_order_mark;
use tp_base::AtomTable;
use tree_sem::{Forest, Tree};

// Goes on by a token, where there is one.
#[tactic(auto, unfolding(crate::specs::Machine::any_token), using(crate::proofs::Fronts::front_itself))]
fn take<'a>(builder: &mut Builder<'a>, token: Option<Token<'a>>) -> Result<(), PageFault>
    requires stands { Stands builder.old }
    ensures takes { Takes (machine.any_token (option_map token_of token.entry)) builder.old builder.new result }
    ensures goes_on { GoesOn builder.old builder.new result }
{
    match token {
        None => Ok(()),
        Some(token) => builder.take_token(token),
    }
}

// Goes on by the tokens of the last bytes of a file of `size` bytes.
#[tactic(auto, using(crate::proofs::ReadingSteps::adds, crate::proofs::ReadingSteps::fails, crate::proofs::ReadingSteps::ends, crate::proofs::Fronts::front_itself, crate::proofs::Fronts::front_of_front))]
fn take_all<'a>(builder: &mut Builder<'a>, size: usize, text: &'a [u8]) -> Result<(), PageFault>
    requires within { length text.now ≤ size }
    requires stands { Stands builder.old }
    ensures takes { Takes (machine.run (tokens size text.now)) builder.old builder.new result }
    ensures goes_on { GoesOn builder.old builder.new result }
{
    let mut rest = text;
    'tokens: while !rest.is_empty() {
        let (token, behind) = next(size - rest.len(), rest);
        take(builder, token)?;
        rest = behind;
    }
    Ok(())
}

// Goes on by a whole page, whose html, head and body have no names yet.
#[tactic(auto, unfolding(crate::specs::Machine::with_page), using(crate::proofs::Fronts::front_of_front))]
fn take_page<'a>(builder: &mut Builder<'a>, text: &'a [u8]) -> Result<(), PageFault>
    requires stands { Stands builder.old }
    ensures takes { Takes (machine.with_page (tokens (length text.now) (order_mark.behind_order_mark text.now))) builder.old builder.new result }
    ensures goes_on { GoesOn builder.old builder.new result }
{
    builder.name_roots()?;
    take_all(builder, text.len(), behind_order_mark(text))
}

// Reads a page that is UTF-8.
#[tactic(auto, using(crate::proofs::Fronts::front_itself))]
fn page(alloc: Global, text: &[u8], atoms: &mut AtomTable) -> Result<Tree, PageFault>
    ensures reads { Reads (λ t. t) result atoms.new (page_of (tokens (length text.now) (order_mark.behind_order_mark text.now)) atoms.old) }
    ensures front { IsFront atoms.old atoms.new }
{
    let mut builder = Builder::start_page(alloc, atoms)?;
    let taken = take_page(&mut builder, text);
    *atoms = builder.take_atoms();
    taken?;
    builder.finish_page()
}

// Reads markup that is UTF-8.
#[tactic(auto, using(crate::proofs::Fronts::front_itself))]
fn forest(alloc: Global, text: &[u8], atoms: &mut AtomTable) -> Result<Forest, PageFault>
    ensures reads { Reads (λ f. f.tops) result atoms.new (forest_of (tokens (length text.now) text.now) atoms.old) }
    ensures front { IsFront atoms.old atoms.new }
{
    let mut builder = Builder::start_forest(alloc, atoms)?;
    let taken = take_all(&mut builder, text.len(), text);
    *atoms = builder.take_atoms();
    taken?;
    builder.finish_forest()
}

/// Reads a page: its tree has html at the root, and head and body below it. The names that were read before a refusal stay in the
/// table. Linear in the file, on average, but for one sort of each node's atoms; html, head and body may have any number of tags.
#[tactic(auto, unfolding(crate::specs::Reading::read_page), using(text_bytes::proofs::Utf8::valid_len, crate::proofs::Fronts::front_itself))]
pub fn read_page(alloc: Global, text: &[u8], atoms: &mut AtomTable) -> Result<Tree, PageFault>
    ensures reads { Reads (λ t. t) result atoms.new (spec.read_page text.now atoms.old) }
    ensures over { IfOk result (λ t. IsTreeOver (length atoms.new) t) }
    ensures front { IsFront atoms.old atoms.new }
{
    match text.to_str() {
        Err(e) => Err(PageFault::NotUtf8(e.valid_up_to())),
        Ok(_) => page(alloc, text, atoms),
    }
}

/// Reads the markup that a script adds: trees next to one another. The names that were read before a refusal stay in the table.
/// It costs what `read_page` costs.
#[tactic(auto, unfolding(crate::specs::Reading::read_forest), using(text_bytes::proofs::Utf8::valid_len, crate::proofs::Fronts::front_itself))]
pub fn read_forest(alloc: Global, text: &[u8], atoms: &mut AtomTable) -> Result<Forest, PageFault>
    ensures reads { Reads (λ f. f.tops) result atoms.new (spec.read_forest text.now atoms.old) }
    ensures over { IfOk result (λ f. All (IsTreeOver (length atoms.new)) f.tops) }
    ensures front { IsFront atoms.old atoms.new }
{
    match text.to_str() {
        Err(e) => Err(PageFault::NotUtf8(e.valid_up_to())),
        Ok(_) => forest(alloc, text, atoms),
    }
}
