//! Reads a sheet from left to right.
ghost use Rattle.std.specs.Prelude.{◌≡◌, ◌≤◌, ◌<◌, ◌+◌, All, length, map, slice_range, IfOk, OnOk};
ghost use Rattle.text_bytes.specs.Rests.{IsRest};
ghost use Rattle.sel_text.specs.Results.{IsFront};
ghost use Rattle.css_read.specs.Drafts.{draft_of, IsDraft, ReadsOn};
ghost use Rattle.css_read.specs.Fronts.{list_len};
ghost use Rattle.css_read.specs.Order.{AreApart, AreInRules, range_of};
ghost use Rattle.css_read.specs.Pieces.{pieces};
ghost use Rattle.css_read.specs.Places.{IsPlaced, ArePlaced};
ghost use Rattle.css_read.specs.Readable.{IsReadableOutcome, AllReadable};
ghost use Rattle.css_read.specs.Reading as spec;
ghost use Rattle.css_read.specs.Results.{Reads};
ghost use Rattle.css_read.specs.Rules as rules;
ghost use Rattle.css_read.specs.Views.{item_of, sheet_of};

use crate::faults::{MOST_SELECTORS, SheetFault};
use crate::fronts::{Front, depth_after, next_front};
use crate::pieces::first_piece;
use crate::sheets::{Outcome, Range, Ranges, Sheet, SheetItem, SheetItems};
use bstr::ByteSlice;
use sel_text::{SelFault, read_selector};
use std::alloc::Global;
use std::mem::replace;
use text_bytes::behind_order_mark;
use tp_base::AtomTable;

/// A sheet in the course of reading: its text, the table of names, and what was read so far.
#[derive(Drop)]
pub(crate) struct Draft<'t> {
    text: &'t [u8],
    atoms: AtomTable,
    items: Vec<SheetItem>,
    rules: Vec<Range>,
}

impl<'t> Draft<'t> {
    // Reads the selector at a range of a rule's list.
    #[tactic(auto, unfolding(crate::specs::Reading::read_item))]
    fn read_item(&mut self, rule: u32, piece: Range) -> Result<SheetItem, SheetFault>
        requires from { piece.from ≤ piece.to }
        requires to { piece.to ≤ length self.old.text.now }
        ensures reads { Reads item_of result self.new.atoms (spec.read_item self.old.text.now rule self.old.atoms piece) }
        ensures readable { IfOk result (λ i. IsReadableOutcome self.new.atoms (item_of i).outcome) }
        ensures placed { IfOk result (λ i. IsPlaced (length self.old.text.now) (item_of i)) }
        ensures items { self.new.items ≡ self.old.items }
        ensures rules { self.new.rules ≡ self.old.rules }
        ensures reads_on { ReadsOn self.old self.new }
    {
        let alloc = *self.items.allocator();
        let Range { from, to } = piece;
        let outcome = match read_selector(alloc, self.text, from, to, &mut self.atoms) {
            Ok(selector) => Outcome::Judged(selector),
            Err(SelFault::Skipped(why, at)) => Outcome::Skipped(why, at),
            Err(SelFault::TooManyAtoms) => return Err(SheetFault::TooManyAtoms(from)),
            Err(SelFault::Memory) => return Err(SheetFault::Memory),
        };
        Ok(SheetItem {
            from,
            to,
            rule,
            outcome,
        })
    }

    // Reads the selector at a range of a rule's list, unless the limit is reached.
    #[tactic(auto, unfolding(crate::specs::Reading::add_item), using(sel_text::proofs::Fronts::front_itself))]
    fn add_item(&mut self, rule: u32, piece: Range) -> Result<(), SheetFault>
        requires from { piece.from ≤ piece.to }
        requires to { piece.to ≤ length self.old.text.now }
        requires draft { IsDraft self.old }
        ensures reads { Reads (λ _. map item_of self.new.items.items) result self.new.atoms (spec.add_item self.old.text.now rule (map item_of self.old.items.items) self.old.atoms piece) }
        ensures more { OnOk result (length self.new.items.items ≡ length self.old.items.items + 1) }
        ensures draft { OnOk result (IsDraft self.new) }
        ensures rules { self.new.rules ≡ self.old.rules }
        ensures reads_on { ReadsOn self.old self.new }
    {
        if self.items.len() >= MOST_SELECTORS {
            return Err(SheetFault::TooManySelectors(piece.from));
        }
        let item = self.read_item(rule, piece)?;
        self.items.push(item)?;
        Ok(())
    }

    // Reads the selectors of a rule's list.
    #[tactic(auto, using(crate::proofs::ItemSteps::begins, crate::proofs::ItemSteps::first_fails, crate::proofs::ItemSteps::goes_on, crate::proofs::ItemSteps::fails, crate::proofs::ItemSteps::ends, sel_text::proofs::Fronts::front_of_front, text_bytes::proofs::Rests::of_rest))]
    fn add_items(&mut self, rule: u32, list: Range) -> Result<(), SheetFault>
        requires from { list.from ≤ list.to }
        requires to { list.to ≤ length self.old.text.now }
        requires draft { IsDraft self.old }
        ensures reads { Reads (λ _. map item_of self.new.items.items) result self.new.atoms
            (spec.add_items self.old.text.now rule (map item_of self.old.items.items) self.old.atoms (pieces list.to (slice_range self.old.text.now list.from list.to))) }
        ensures more { OnOk result (length self.old.items.items < length self.new.items.items) }
        ensures draft { OnOk result (IsDraft self.new) }
        ensures rules { self.new.rules ≡ self.old.rules }
        ensures reads_on { ReadsOn self.old self.new }
    {
        let alloc = *self.items.allocator();
        let text = self.text;
        let (piece, mut rest) = first_piece(alloc, list.to, &text[list.from..list.to])?;
        self.add_item(rule, piece)?;
        'commas: while let Some((_, behind)) = rest.split_first() {
            let (piece, left) = first_piece(alloc, list.to, behind)?;
            self.add_item(rule, piece)?;
            rest = left;
        }
        Ok(())
    }

    // Reads the range between two offsets, if it is a rule.
    #[tactic(auto, unfolding(crate::specs::Reading::add_rules, crate::specs::Reading::add_rule), using(sel_text::proofs::Fronts::front_itself))]
    fn add_front(&mut self, front: Front, place: Range) -> Result<(), SheetFault>
        requires within { place.from + list_len front ≤ length self.old.text.now }
        requires draft { IsDraft self.old }
        ensures reads { Reads (λ _. draft_of self.new) result self.new.atoms (spec.add_rules self.old.text.now (draft_of self.old) self.old.atoms (rules.rules_at front place.from place.to)) }
        ensures draft { OnOk result (IsDraft self.new) }
        ensures reads_on { ReadsOn self.old self.new }
    {
        let Front::Styles(len) = front else {
            return Ok(());
        };
        let rule = self.rules.len() as u32;
        let list = Range {
            from: place.from,
            to: place.from + len,
        };
        self.add_items(rule, list)?;
        self.rules.push(place)?;
        Ok(())
    }

    // Reads all rules of the text.
    #[tactic(auto, using(crate::proofs::RuleSteps::begins, crate::proofs::RuleSteps::goes_on, crate::proofs::RuleSteps::fails, crate::proofs::RuleSteps::ends, sel_text::proofs::Fronts::front_itself, sel_text::proofs::Fronts::front_of_front, text_bytes::proofs::Rests::of_rest))]
    fn add_rules(&mut self) -> Result<(), SheetFault>
        requires none { draft_of self.old ≡ spec.empty_sheet }
        requires draft { IsDraft self.old }
        ensures reads { Reads (λ _. draft_of self.new) result self.new.atoms (spec.add_rules self.old.text.now spec.empty_sheet self.old.atoms (rules.rules_of self.old.text.now)) }
        ensures draft { OnOk result (IsDraft self.new) }
        ensures reads_on { ReadsOn self.old self.new }
    {
        let alloc = *self.items.allocator();
        let text = self.text;
        let mut depth = 0;
        let mut rest = behind_order_mark(text);
        'rules: while !rest.is_empty() {
            let (front, behind) = next_front(alloc, depth > 0, rest)?;
            let place = Range {
                from: text.len() - rest.len(),
                to: text.len() - behind.len(),
            };
            self.add_front(front, place)?;
            depth = depth_after(depth, front);
            rest = behind;
        }
        Ok(())
    }
}

/// Reads a sheet. A byte order mark at its front is passed over. If the sheet is refused, the names that were read before stay
/// in the table. Linear in the file, in time and in memory.
#[tactic(auto, unfolding(crate::specs::Reading::read_sheet), using(text_bytes::proofs::Utf8::valid_len, sel_text::proofs::Fronts::front_itself))]
pub fn read_sheet(alloc: Global, text: &[u8], atoms: &mut AtomTable) -> Result<Sheet, SheetFault>
    ensures reads { Reads sheet_of result atoms.new (spec.read_sheet text.now atoms.old) }
    ensures count { IfOk result (λ s. length s.items ≤ MOST_SELECTORS) }
    ensures placed { IfOk result (λ s. ArePlaced (length text.now) s.items) }
    ensures readable { IfOk result (λ s. AllReadable atoms.new (sheet_of s).items) }
    ensures rules_apart { IfOk result (λ s. AreApart 0 (length text.now) s.rules) }
    ensures items_apart { IfOk result (λ s. AreApart 0 (length text.now) (map range_of (sheet_of s).items)) }
    ensures numbered { IfOk result (λ s. All (λ i. i.rule < length s.rules) s.items) }
    ensures in_rules { IfOk result (λ s. AreInRules s.rules s.items) }
    ensures front { IsFront atoms.old atoms.new }
{
    if let Err(e) = text.to_str() {
        return Err(SheetFault::NotUtf8(e.valid_up_to()));
    }
    let mut draft = Draft {
        text,
        atoms: replace(atoms, AtomTable::new(alloc)),
        items: Vec::new(alloc),
        rules: Vec::new(alloc),
    };
    match draft.add_rules() {
        Ok(()) => {
            *atoms = draft.atoms;
            Ok(Sheet {
                items: SheetItems::new(draft.items),
                rules: Ranges::new(draft.rules),
            })
        }
        Err(fault) => {
            *atoms = draft.atoms;
            Err(fault)
        }
    }
}
