//! Finds the holders of a text: the at-rules whose block holds rules.
ghost use Rattle.std.specs.Prelude.{◌≡◌, ◌≤◌, ◌<◌, ◌+◌, ◌^◌, nat_lt, not, All, drop, length, codes, IfOk, OnOk};
ghost use Rattle.sel_text.specs.Grammar as grammar;
ghost use Rattle.tp_base.specs.declared.places.TheConstants.{MOST_BYTES};
ghost use Rattle.css_read.specs.declared.fronts.Front.TheVariants.{Opens};
ghost use Rattle.css_read.specs.FoundHolders as found;
ghost use Rattle.css_read.specs.FoundViews.{found_of};
ghost use Rattle.css_read.specs.Held.{AreHeld, AreNested};
ghost use Rattle.css_read.specs.Holders as spec;
ghost use Rattle.css_read.specs.Rules.{rules_of};

use crate::fronts::{Front, next_front};
use crate::holders::{Holder, HolderList, Holders, Owners};
use crate::sheets::Range;
use crate::units::begins_gap;
use sel_text::{is_word, name_len};
use std::alloc::{AllocError, Global};
use text_bytes::behind_order_mark;
use tp_base::NoMemory;

// Whether the at-rule at an offset has no effect when it holds no rule.
fn is_loose(text: &[u8], from: usize) -> bool
    requires { from < length text.now }
    ensures { result ≡ not (grammar.is_word (spec.at_name text.now from) (codes "layer")) }
{
    let behind = text.split_at(from + 1).1;
    !is_word(behind.split_at(name_len(behind)).0, b"layer")
}

/// The holders of a text, as far as it was read, and the owner of each rule.
#[derive(Drop)]
pub(crate) struct Found {
    holders: Vec<Holder>,
    owners: Vec<Option<u32>>,
    /// The numbers of the open holders, the innermost last.
    opened: Vec<u32>,
}

impl Found {
    // Whether a holder is open.
    #[tactic(auto, using(crate::proofs::FoundLemmas::inside_is))]
    fn is_inside(&self) -> bool
        ensures { result ≡ nat_lt 0 (length (found_of self.now).opened) }
    {
        !self.opened.is_empty()
    }

    // The number of the innermost open holder.
    #[tactic(auto, using(crate::proofs::FoundLemmas::last_is))]
    fn innermost(&self) -> Option<u32>
        ensures { result ≡ spec.innermost (found_of self.now).opened }
    {
        match self.opened.last() {
            None => None,
            Some(number) => Some(*number),
        }
    }

    // Passes over white space or a comment (`is_gap`), or over anything else, which leaves the innermost holder not bare.
    #[tactic(auto, using(crate::proofs::FoundLemmas::none_innermost, crate::proofs::FoundLemmas::innermost_within))]
    fn pass(&mut self, is_gap: bool)
        requires { All (λ n. n < length self.old.holders.items) self.old.opened.items }
        ensures found { found_of self.new ≡ found.passed_over is_gap (found_of self.old) }
        ensures numbered { All (λ n. n < length self.new.holders.items) self.new.opened.items }
        ensures count { length self.new.holders.items ≡ length self.old.holders.items }
    {
        if is_gap {
            return;
        }
        let Some(number) = self.innermost() else {
            return;
        };
        let holder = self.holders[number as usize];
        self.holders[number as usize] = Holder {
            bare: false,
            ..holder
        };
    }

    // Begins a holder. Until something else is found, it ends with the file and is bare.
    #[tactic(auto, using(crate::proofs::FoundLemmas::pushed, crate::proofs::FoundLemmas::below_more))]
    fn open(&mut self, text: &[u8], place: Range) -> Result<(), AllocError>
        requires from { place.from < length text.now }
        requires to { place.from < place.to }
        requires few { length self.old.holders.items < 2 ^ 32 }
        requires numbered { All (λ n. n < length self.old.holders.items) self.old.opened.items }
        ensures found { OnOk result (found_of self.new ≡ found.found_after text.now (found_of self.old) Opens place.from place.to) }
        ensures numbered { OnOk result (All (λ n. n < length self.new.holders.items) self.new.opened.items) }
        ensures count { OnOk result (length self.new.holders.items ≡ length self.old.holders.items + 1) }
    {
        let number = self.holders.len() as u32;
        let holder = Holder {
            from: place.from,
            brace: place.to - 1,
            to: text.len(),
            inside: self.innermost(),
            loose: is_loose(text, place.from),
            bare: true,
        };
        self.holders.push(holder)?;
        self.opened.push(number)?;
        Ok(())
    }

    // Closes the innermost open holder.
    #[tactic(auto, using(crate::proofs::FoundLemmas::popped))]
    fn close(&mut self, to: usize)
        requires { All (λ n. n < length self.old.holders.items) self.old.opened.items }
        ensures found { found_of self.new ≡ found.closed to (found_of self.old) }
        ensures numbered { All (λ n. n < length self.new.holders.items) self.new.opened.items }
        ensures count { length self.new.holders.items ≡ length self.old.holders.items }
    {
        let Some(number) = self.opened.pop() else {
            return;
        };
        let holder = self.holders[number as usize];
        self.holders[number as usize] = Holder { to, ..holder };
    }

    // Adds a rule, whose owner is the innermost open holder.
    fn add_rule(&mut self) -> Result<(), AllocError>
        ensures found { OnOk result (found_of self.new ≡ found.with_rule (found_of self.old)) }
        ensures holders { self.new.holders ≡ self.old.holders }
        ensures opened { self.new.opened ≡ self.old.opened }
    {
        let owner = self.innermost();
        self.owners.push(owner)?;
        Ok(())
    }

    // Takes one front, which stands where a rule may begin.
    fn step(&mut self, text: &[u8], front: Front, place: Range) -> Result<(), AllocError>
        requires from { place.from < length text.now }
        requires to { place.from < place.to }
        requires few { length self.old.holders.items < 2 ^ 32 }
        requires numbered { All (λ n. n < length self.old.holders.items) self.old.opened.items }
        ensures found { OnOk result (found_of self.new ≡ found.found_after text.now (found_of self.old) front place.from place.to) }
        ensures numbered { OnOk result (All (λ n. n < length self.new.holders.items) self.new.opened.items) }
        ensures count { OnOk result (length self.new.holders.items ≤ length self.old.holders.items + 1) }
    {
        match front {
            Front::Passed => self.pass(begins_gap(text.split_at(place.from).1)),
            Front::Opens => self.open(text, place)?,
            Front::Closes => self.close(place.to),
            Front::Styles(_) => self.add_rule()?,
        }
        Ok(())
    }
}

// Finds the holders of a text. Linear in the text.
#[tactic(auto, using(crate::proofs::HolderSteps::begins, crate::proofs::HolderSteps::goes_on, crate::proofs::HolderSteps::ends, text_bytes::proofs::Rests::of_rest))]
fn find(alloc: Global, text: &[u8]) -> Result<Found, AllocError>
    requires { length text.now ≤ MOST_BYTES }
    ensures { IfOk result (λ f. found_of f ≡ found.found_from text.now found.none_found (spec.steps_of text.now)) }
{
    let mut found = Found {
        holders: Vec::new(alloc),
        owners: Vec::new(alloc),
        opened: Vec::new(alloc),
    };
    let mut rest = behind_order_mark(text);
    'steps: while !rest.is_empty() {
        let (front, behind) = next_front(alloc, found.is_inside(), rest)?;
        let place = Range {
            from: text.len() - rest.len(),
            to: text.len() - behind.len(),
        };
        found.step(text, front, place)?;
        rest = behind;
    }
    Ok(found)
}

/// Finds the at-rules whose block holds rules, and for each rule the innermost of them around it. Linear in the file, in time
/// and in memory.
#[tactic(auto, using(crate::proofs::HolderLemmas::holders_found, crate::proofs::HolderLemmas::owners_found, crate::proofs::HeldLemmas::rules_held, crate::proofs::HeldLemmas::holders_nested))]
pub fn read_holders(alloc: Global, text: &[u8]) -> Result<Holders, NoMemory>
    requires in_limit { length text.now ≤ MOST_BYTES }
    ensures holders { IfOk result (λ h. h.holders ≡ spec.holders_of text.now) }
    ensures of_rule { IfOk result (λ h. h.of_rule ≡ spec.owners_of text.now) }
    ensures held { IfOk result (λ h. AreHeld h.holders (rules_of text.now) h.of_rule) }
    ensures nested { IfOk result (λ h. AreNested h.holders) }
{
    let found = find(alloc, text)?;
    Ok(Holders {
        holders: HolderList::new(found.holders),
        of_rule: Owners::new(found.owners),
    })
}
