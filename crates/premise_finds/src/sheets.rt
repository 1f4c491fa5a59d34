//! The findings of a sheet, in the order of their places.
ghost use Rattle.std.specs.Prelude.{◌≡◌, ◌≤◌, ◌++◌, nat_lt, length, IfOk, OnOk};
ghost use Rattle.css_read.specs.Fronts.{list_len};
ghost use Rattle.premise_finds.specs.Orders.{AreInOrder};
ghost use Rattle.premise_finds.specs.Sheets as spec;

use crate::bytes::behind_byte;
use crate::findings::{Finding, Findings};
use crate::names::Name;
use crate::orders::sort_findings;
use crate::selectors::selector_findings;
use crate::sheet_names::{is_at_rule, name_at};
use css_read::{Front, behind_unit, depth_after, next_front};
use std::alloc::{AllocError, Global};
use text_bytes::behind_order_mark;
use tp_base::NoMemory;

/// Where a byte of a sheet stands.
#[derive(Clone, Copy, Debug, PartialEq, Eq)]
pub(crate) enum Region {
    /// In a rule's list of selectors.
    List,
    /// In a rule's block.
    Block,
    /// In neither.
    Between,
}

// What is found so far in a sheet of so many bytes, and whether that has several `@layer`.
#[derive(Drop)]
struct Draft {
    found: Vec<Finding>,
    size: usize,
    several: bool,
}

// Adds a finding where there is one.
fn add_one(
    found: &mut Vec<Finding>,
    name: Option<Name>,
    from: usize,
    to: usize,
) -> Result<(), AllocError>
    ensures { OnOk result (found.new.items ≡ found.old.items ++ spec.one name from to) }
{
    if let Some(name) = name {
        found.push(Finding { name, from, to })?;
    }
    Ok(())
}

impl Draft {
    // Adds what is found in a part that ends at the offset `to`.
    #[tactic(auto, using(crate::proofs::SheetSteps::found_step, crate::proofs::SheetSteps::found_ends, text_bytes::proofs::Rests::of_rest))]
    fn add_in(&mut self, region: Region, to: usize, text: &[u8]) -> Result<(), AllocError>
        requires { length text.now ≤ to }
        ensures found { OnOk result (self.new.found.items ≡ self.old.found.items ++ spec.found_in region self.old.several to text.now) }
        ensures size { self.new.size ≡ self.old.size }
        ensures several { self.new.several ≡ self.old.several }
    {
        let several = self.several;
        let mut rest = text;
        'units: while !rest.is_empty() {
            let name = name_at(region, several, rest);
            add_one(&mut self.found, name, to - rest.len(), to)?;
            rest = behind_unit(rest);
        }
        Ok(())
    }

    // Adds what is found in a rule whose list takes so many bytes, up to the rest.
    #[tactic(auto, using(crate::proofs::SheetSteps::joined))]
    fn add_rule(&mut self, len: usize, text: &[u8], rest: &[u8]) -> Result<(), AllocError>
        requires list { len ≤ length text.now }
        requires within { length text.now ≤ self.old.size }
        requires rest { length rest.now ≤ length text.now }
        ensures found { OnOk result (self.new.found.items ≡ self.old.found.items ++ spec.found_in_rule self.old.several self.old.size len text.now rest.now) }
        ensures size { self.new.size ≡ self.old.size }
        ensures several { self.new.several ≡ self.old.several }
    {
        let size = self.size;
        let (list, behind) = text.split_at(len);
        self.add_in(Region::List, size - behind.len(), list)?;
        let block = behind_byte(behind);
        let inside = block.split_at(block.len().saturating_sub(rest.len())).0;
        self.add_in(Region::Block, size - rest.len(), inside)?;
        Ok(())
    }

    // Adds what is found in what a front begins, up to the rest.
    fn add_front(&mut self, front: Front, text: &[u8], rest: &[u8]) -> Result<(), AllocError>
        requires list { list_len front ≤ length text.now }
        requires within { length text.now ≤ self.old.size }
        requires rest { length rest.now ≤ length text.now }
        ensures found { OnOk result (self.new.found.items ≡ self.old.found.items ++ spec.found_in_front self.old.several self.old.size text.now (front, rest.now)) }
        ensures size { self.new.size ≡ self.old.size }
        ensures several { self.new.several ≡ self.old.several }
    {
        match front {
            Front::Styles(len) => self.add_rule(len, text, rest),
            _ => {
                let part = text.split_at(text.len() - rest.len()).0;
                self.add_in(Region::Between, self.size - rest.len(), part)
            }
        }
    }
}

// 1 where an `@layer` begins, and else 0.
fn layer_at(text: &[u8]) -> usize
    ensures gives { result ≡ spec.layer_at text.now }
    ensures one { result ≤ 1 }
{
    if is_at_rule(b"layer", text) { 1 } else { 0 }
}

// Whether there are several `@layer`.
#[tactic(auto, using(crate::proofs::SheetSteps::layers_step, crate::proofs::SheetSteps::no_layers, text_bytes::proofs::Rests::of_rest))]
fn has_several_layers(text: &[u8]) -> bool
    ensures { result ≡ nat_lt 1 (spec.layers_from 0 text.now) }
{
    let mut count: usize = 0;
    let mut rest = text;
    'units: while !rest.is_empty() {
        count += layer_at(rest);
        rest = behind_unit(rest);
    }
    count > 1
}

// The findings of a sheet but for those of whole selectors.
#[tactic(auto, using(crate::proofs::SheetSteps::begins, crate::proofs::SheetSteps::goes_on, crate::proofs::SheetSteps::ends, text_bytes::proofs::Rests::of_rest))]
fn text_findings(alloc: Global, text: &[u8]) -> Result<Vec<Finding>, NoMemory>
    ensures { IfOk result (λ f. f.items ≡ spec.text_findings text.now) }
{
    let mut rest = behind_order_mark(text);
    let mut draft = Draft {
        found: Vec::new(alloc),
        size: text.len(),
        several: has_several_layers(rest),
    };
    let mut depth = 0;
    'fronts: while !rest.is_empty() {
        let (front, behind) = next_front(alloc, depth > 0, rest)?;
        draft.add_front(front, rest, behind)?;
        depth = depth_after(depth, front);
        rest = behind;
    }
    Ok(draft.found)
}

/// The findings of a sheet in their order. A byte order mark at the front is passed over. Linear in the sheet, in time and in
/// memory, but for the order.
#[tactic(auto, unfolding(crate::specs::Sheets::sheet_findings))]
pub fn findings_in_sheet(alloc: Global, text: &[u8]) -> Result<Findings, NoMemory>
    ensures { IfOk result (λ f. AreInOrder (spec.sheet_findings text.now) f) }
{
    let mut found = text_findings(alloc, text)?;
    found.extend_from_slice(&selector_findings(alloc, text)?)?;
    sort_findings(&mut found)?;
    Ok(Findings::new(found))
}
