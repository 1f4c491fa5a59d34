//! The findings of a page, in the order of their places.
ghost use Rattle.std.specs.Prelude.{◌≡◌, ◌≤◌, ◌++◌, length, IfOk, OnOk};
ghost use Rattle.std.specs.List.{prefix_len};
ghost use Rattle.html_tokens.specs.Bytes.{in_bare_value};
ghost use Rattle.text_bytes.specs.Rests.{IsRest};
ghost use Rattle.std.specs.Option.{option_map};
ghost use Rattle.html_tokens.specs.Views.{token_of};
ghost use Rattle.premise_finds.specs.Orders.{AreInOrder};
ghost use Rattle.page_finds.specs.Pages as spec;

use crate::tag_names::add_tag;
use crate::tags::read_tag;
use crate::trees::tree_findings;
use html_tokens::{Token, is_same_name, next};
use premise_finds::{
    Finding, Findings, Name, add_when, begins_word, has_somewhere, past_blanks, sort_findings,
};
use std::alloc::{AllocError, Global};
use text_bytes::{behind_mark, behind_order_mark, is_blank};
use tp_base::NoMemory;

fn is_closed(text: &[u8]) -> bool
    ensures { result ≡ spec.is_closed text.now }
{
    past_blanks(text).starts_with(b">")
}

#[tactic(auto, unfolding(crate::specs::Pages::is_legacy))]
fn is_legacy(text: &[u8]) -> bool
    ensures { result ≡ spec.is_legacy text.now }
{
    if !begins_word(b"system", text) || text.len() < 6 {
        return false;
    }
    let system = past_blanks(text.split_at(6).1);
    if !(system.starts_with(b"\"about:legacy-compat\"")
        || system.starts_with(b"'about:legacy-compat'"))
    {
        return false;
    }
    system.len() >= 21 && is_closed(system.split_at(21).1)
}

// How many bytes a document type's name takes. Linear in it.
fn type_name_len(text: &[u8]) -> usize
    ensures gives { result ≡ prefix_len in_bare_value text.now }
    ensures within { result ≤ length text.now }
{
    text.iter()
        .take_while(|b| !(is_blank(**b) || **b == b'>'))
        .count()
}

#[tactic(auto, unfolding(crate::specs::Pages::is_html))]
fn is_html(text: &[u8]) -> bool
    ensures { result ≡ spec.is_html text.now }
{
    let named = past_blanks(text);
    let (name, others) = named.split_at(type_name_len(named));
    let behind = past_blanks(others);
    is_same_name(name, b"html") && (is_closed(behind) || is_legacy(behind))
}

#[tactic(auto, unfolding(crate::specs::Pages::is_doctype))]
fn is_doctype(text: &[u8]) -> bool
    ensures { result ≡ spec.is_doctype text.now }
{
    begins_word(b"<!doctype", text) && text.len() >= 9 && is_html(text.split_at(9).1)
}

// Behind a comment, or behind a `<?` up to its `>`. Where neither begins here, or a browser ends the comment further up, nothing
// is passed.
#[tactic(auto, unfolding(crate::specs::Pages::behind_comment), using(text_bytes::proofs::Rests::of_rest, text_bytes::proofs::Rests::behind_first, text_bytes::proofs::Rests::itself))]
fn behind_comment(text: &[u8]) -> &[u8]
    ensures gives { result.now ≡ spec.behind_comment text.now }
    ensures rest { IsRest text.now result.now }
{
    if text.starts_with(b"<!--") {
        let rest = behind_mark(b"-->", text.split_at(1).1);
        if has_somewhere(b"--!>", text.split_at(text.len() - rest.len()).0) {
            text
        } else {
            rest
        }
    } else if text.starts_with(b"<?") {
        behind_mark(b">", text)
    } else {
        text
    }
}

// Whether a document type of the standard stands behind white space and comments. Linear in what stands before it.
#[tactic(auto, using(crate::proofs::PageSteps::blank_first, crate::proofs::PageSteps::comment_first, crate::proofs::PageSteps::other_first, crate::proofs::PageSteps::nothing, text_bytes::proofs::Rests::of_rest, text_bytes::proofs::Rests::behind_first))]
fn is_standard(text: &[u8]) -> bool
    ensures { result ≡ spec.is_standard text.now }
{
    let mut rest = text;
    'turns: while let Some((first, behind)) = rest.split_first() {
        if is_blank(*first) {
            rest = behind;
        } else {
            let later = behind_comment(rest);
            if later.len() == rest.len() {
                return is_doctype(rest);
            }
            rest = later;
        }
    }
    false
}

// Adds what is told by the page's first bytes.
#[tactic(auto, unfolding(crate::specs::Pages::found_at_front), using(crate::proofs::TagLists::two))]
fn add_front(found: &mut Vec<Finding>, text: &[u8]) -> Result<(), AllocError>
    ensures { OnOk result (found.new.items ≡ found.old.items ++ spec.found_at_front text.now) }
{
    let page = behind_order_mark(text);
    let size = text.len();
    add_when(found, !is_standard(page), Name::Quirks, 0, size)?;
    let is_xml = page.starts_with(b"<?xml");
    let end = size - behind_mark(b">", page).len();
    add_when(found, is_xml, Name::Xhtml, size - page.len(), end)?;
    Ok(())
}

// Adds what is found at the tag that begins a text, if one does. The tokens go on with the rest.
#[tactic(auto, unfolding(crate::specs::Pages::found_at_token), using(crate::proofs::TagSteps::one_tag))]
fn add_token(
    found: &mut Vec<Finding>,
    token: Option<Token<'_>>,
    size: usize,
    text: &[u8],
    rest: &[u8],
) -> Result<(), AllocError>
    requires { length text.now ≤ size }
    ensures { OnOk result (found.new.items ≡ found.old.items ++ spec.found_at_token size text.now (option_map token_of token.entry, rest.now)) }
{
    if let Some(Token::Start(_)) = token {
        let tag = read_tag(*found.allocator(), size, text, rest)?;
        add_tag(found, &tag)?;
    }
    Ok(())
}

// The findings of a page that are told by its tokens.
#[tactic(auto, unfolding(crate::specs::Pages::token_findings), using(crate::proofs::TagSteps::goes_on, crate::proofs::TagSteps::all_found, text_bytes::proofs::Rests::of_rest))]
fn token_findings(alloc: Global, text: &[u8]) -> Result<Vec<Finding>, NoMemory>
    ensures { IfOk result (λ f. f.items ≡ spec.token_findings text.now) }
{
    let size = text.len();
    let mut found = Vec::new(alloc);
    add_front(&mut found, text)?;
    let mut rest = behind_order_mark(text);
    'tokens: while !rest.is_empty() {
        let (token, behind) = next(size - rest.len(), rest);
        add_token(&mut found, token, size, rest, behind)?;
        rest = behind;
    }
    Ok(found)
}

/// The findings of a page in their order. A byte order mark at the front is passed over. Linear in the page, in time and in
/// memory, but for the order.
#[tactic(auto, unfolding(crate::specs::Pages::page_findings))]
pub fn findings_in_page(alloc: Global, text: &[u8]) -> Result<Findings, NoMemory>
    ensures { IfOk result (λ f. AreInOrder (spec.page_findings text.now) f) }
{
    let mut found = token_findings(alloc, text)?;
    found.extend_from_slice(&tree_findings(alloc, text)?)?;
    sort_findings(&mut found)?;
    Ok(Findings::new(found))
}
