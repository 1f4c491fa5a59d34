//! What is found of a page's tree, token by token.
ghost use Rattle.std.specs.Prelude.{◌≡◌, ◌≤◌, ◌++◌, true, map, length, IfOk, OnOk};
ghost use Rattle.std.specs.Option.{option_map};
ghost use Rattle.html_tokens.specs.Bytes.{lowered};
ghost use Rattle.html_tokens.specs.Views.{token_of, start_tag_of};
ghost use Rattle.html_table.specs.Elements.{element};
ghost use Rattle.html_table.specs.Views.{implied_names};
ghost use Rattle.page_finds.specs.Trees as spec;

use crate::left::{Opened, add_closed, add_left, kept, open_tags};
use crate::tags::read_tag;
use crate::tree_names::{add_start, is_across, is_text_in_a_table};
use html_table::{
    Element, Ending, Implied, OpenElements, behind_paragraph, end_tag, is_opened, place_for,
};
use html_tokens::{StartTag, Token, next};
use premise_finds::{Finding, Name, add_when};
use std::alloc::Global;
use text_bytes::behind_order_mark;
use tp_base::NoMemory;

fn push_implied(elements: &mut OpenElements<'_>, implied: Implied) -> Result<(), NoMemory>
    ensures { OnOk result (elements.new ≡ elements.old ++ map element (implied_names implied)) }
{
    match implied {
        Implied::Nothing => Ok(()),
        Implied::Columns => elements.push(Element::new(b"colgroup")),
        Implied::RowGroup => elements.push(Element::new(b"tbody")),
        Implied::RowGroupAndRow => {
            elements.push(Element::new(b"tbody"))?;
            elements.push(Element::new(b"tr"))
        }
        Implied::Row => elements.push(Element::new(b"tr")),
    }
}

// Opens the element of a start tag where it goes, if anywhere.
#[tactic(auto, unfolding(crate::specs::Trees::after_start))]
fn open_tag<'a>(elements: &mut OpenElements<'a>, tag: StartTag<'a>) -> Result<(), NoMemory>
    ensures { OnOk result (elements.new ≡ spec.after_start (element (lowered tag.entry.name.now)) tag.entry.closes_itself elements.old) }
{
    let (element, is_raw) = elements.element(tag.name);
    if element.kind.is_root() {
        return Ok(());
    }
    let Some(place) = place_for(elements, element.kind, false) else {
        return Ok(());
    };
    elements.truncate(place.left);
    push_implied(elements, place.implied)?;
    if is_opened(element.kind, is_raw, tag.closes_itself, elements) {
        elements.push(element)?;
    }
    Ok(())
}

// Closes what an end tag of this name closes.
#[tactic(auto, unfolding(crate::specs::Trees::after_stop))]
fn close_tag(elements: &mut OpenElements<'_>, name: &[u8]) -> Result<(), NoMemory>
    ensures { OnOk result (elements.new ≡ spec.after_stop (lowered name.now) elements.old) }
{
    match end_tag(elements, name)? {
        Ending::Nothing => {}
        Ending::Paragraph => {
            if let Some(left) = behind_paragraph(elements) {
                elements.truncate(left);
            }
        }
        Ending::Leaves(left) => elements.truncate(left),
    }
    Ok(())
}

fn go_past<'a>(elements: &mut OpenElements<'a>, token: Option<Token<'a>>) -> Result<(), NoMemory>
    ensures { OnOk result (elements.new ≡ spec.after (option_map token_of token.entry) elements.old) }
{
    match token {
        None | Some(Token::Text(_)) => Ok(()),
        Some(Token::Start(tag)) => open_tag(elements, tag),
        Some(Token::End(name, _)) => close_tag(elements, name),
    }
}

// What is found so far in a page of so many bytes, and the elements that are open, with their tags.
#[derive(Drop)]
struct Draft<'a> {
    found: Vec<Finding>,
    elements: OpenElements<'a>,
    tags: Vec<Opened>,
    size: usize,
}

impl<'a> Draft<'a> {
    // Adds what is found at a token, from a text's front to the rest of it.
    #[tactic(auto, unfolding(crate::specs::Trees::found_in_tree))]
    fn add_token(
        &mut self,
        token: Option<Token<'a>>,
        text: &'a [u8],
        rest: &[u8],
    ) -> Result<(), NoMemory>
        requires within { length text.now ≤ self.old.size }
        requires rest { length rest.now ≤ length text.now }
        ensures found { OnOk result (self.new.found.items ≡ self.old.found.items ++ spec.found_in_tree self.old.size self.old.elements text.now (option_map token_of token.entry, rest.now)) }
        ensures elements { self.new.elements ≡ self.old.elements }
        ensures tags { self.new.tags ≡ self.old.tags }
        ensures size { self.new.size ≡ self.old.size }
    {
        let from = self.size - text.len();
        let to = self.size - rest.len();
        match token {
            None => {}
            Some(Token::Text(bytes)) => {
                let is = is_text_in_a_table(bytes, &self.elements);
                add_when(&mut self.found, is, Name::InATable, from, to)?;
            }
            Some(Token::Start(_)) => {
                let tag = read_tag(*self.found.allocator(), self.size, text, rest)?;
                add_start(&mut self.found, &tag, &self.elements)?;
            }
            Some(Token::End(name, _)) => {
                let is = is_across(name, &self.elements)?;
                add_when(&mut self.found, is, Name::TagAcrossAnother, from, to)?;
            }
        }
        Ok(())
    }
    // Goes past a token, and adds what it leaves open.
    fn go_on(&mut self, token: Option<Token<'a>>, text: &[u8], rest: &[u8]) -> Result<(), NoMemory>
        requires within { length text.now ≤ self.old.size }
        requires rest { length rest.now ≤ length text.now }
        ensures found { OnOk result (self.new.found.items ≡ self.old.found.items ++ spec.found_closed (option_map token_of token.entry) self.old.elements self.old.tags.items) }
        ensures elements { OnOk result (self.new.elements ≡ spec.after (option_map token_of token.entry) self.old.elements) }
        ensures tags { OnOk result (self.new.tags.items ≡ spec.tags_after (spec.opened_at self.old.size text.now rest.now) (spec.kept (option_map token_of token.entry) self.old.elements) (length self.new.elements) self.old.tags.items) }
        ensures size { self.new.size ≡ self.old.size }
    {
        let kept = kept(token, &self.elements)?;
        add_closed(&mut self.found, &self.elements, &self.tags, token, kept)?;
        go_past(&mut self.elements, token)?;
        let tag = Opened {
            from: self.size - text.len(),
            to: self.size - rest.len(),
        };
        open_tags(&mut self.tags, tag, kept, self.elements.len())?;
        Ok(())
    }
    // Adds what is left open at the file's end.
    fn end(&mut self) -> Result<(), NoMemory>
        ensures { OnOk result (self.new.found.items ≡ self.old.found.items ++ spec.left_from true 0 self.old.elements self.old.tags.items) }
    {
        add_left(&mut self.found, &self.elements, &self.tags, 0, true)?;
        Ok(())
    }
}

/// What is found of a page's tree. Linear in the page, in time and in memory.
#[tactic(auto, using(crate::proofs::TreeSteps::goes_on, crate::proofs::TreeSteps::ends, crate::proofs::TreeSteps::begins, text_bytes::proofs::Rests::of_rest))]
pub(crate) fn tree_findings(alloc: Global, text: &[u8]) -> Result<Vec<Finding>, NoMemory>
    ensures { IfOk result (λ f. f.items ≡ spec.tree_findings text.now) }
{
    let mut draft = Draft {
        found: Vec::new(alloc),
        elements: OpenElements::new(alloc),
        tags: Vec::new(alloc),
        size: text.len(),
    };
    let mut rest = behind_order_mark(text);
    'tokens: while !rest.is_empty() {
        let (token, behind) = next(text.len() - rest.len(), rest);
        draft.add_token(token, rest, behind)?;
        draft.go_on(token, rest, behind)?;
        rest = behind;
    }
    draft.end()?;
    Ok(draft.found)
}
