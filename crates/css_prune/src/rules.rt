//! The fate of each rule: deleted, cut or kept.
ghost use Rattle.std.specs.Prelude.{◌≡◌, ◌≤◌, ◌==◌, ◌&&◌, not, false, if◌then◌else◌, List, [], ◌∷◌, ◌++◌, length, map, IfOk, OnOk};
ghost use Rattle.std.specs.List.{list_all, list_any};
ghost use Rattle.css_read.specs.Pruned as spec;
ghost use Rattle.css_read.specs.Views.{item_of};
ghost use Rattle.css_prune.specs.Flags.{flagged, is_fixed_by};
ghost use Rattle.css_prune.specs.Groups.{leading, AreInOrder};

use crate::fixing::is_fixed;
use crate::lists::push_list;
use css_read::{Range, Sheet, SheetItem};
use std::alloc::Global;
use tp_base::NoMemory;

// How many of the first selectors are of a rule.
fn leading_count(rule: usize, items: &[SheetItem]) -> usize
    ensures gives { result ≡ leading rule (map item_of items.now) }
    ensures within { result ≤ length items.now }
{
    let mut count = 0;
    let mut rest = items;
    'items: while let Some((item, later)) = rest.split_first() {
        if item.rule as usize != rule {
            return count;
        }
        count += 1;
        rest = later;
    }
    count
}

// Whether each selector goes.
fn all_unused(unused: &[bool]) -> bool
    ensures { result ≡ list_all (λ g. g) unused.now }
{
    unused.iter().all(|goes| *goes)
}

/// Whether any goes, of selectors or of rules.
pub(crate) fn any_goes(flags: &[bool]) -> bool
    ensures { result ≡ list_any (λ g. g) flags.now }
{
    flags.iter().any(|goes| *goes)
}

// Whether there are selectors, and each of them stays.
fn all_stay(unused: &[bool]) -> bool
    ensures { result ≡ (not (length unused.now == 0) && not (list_any (λ g. g) unused.now)) }
{
    !unused.is_empty() && !any_goes(unused)
}

/// What becomes of the first rules of a sheet.
#[derive(Drop)]
pub(crate) struct Fates {
    /// Whether each goes.
    pub(crate) gone: Vec<bool>,
    /// What goes of the lists of those that stay.
    pub(crate) cuts: Vec<Range>,
}

impl Fates {
    // Adds a rule of which nothing goes.
    fn keep_rule(&mut self) -> Result<(), NoMemory>
        ensures gone { OnOk result (self.new.gone.items ≡ self.old.gone.items ++ false ∷ []) }
        ensures cuts { OnOk result (self.new.cuts.items ≡ self.old.cuts.items) }
    {
        self.gone.push(false)?;
        Ok(())
    }

    // Adds the next rule, by its range and its selectors. Where none of them goes, nothing else is looked at.
    fn add_rule(
        &mut self,
        text: &[u8],
        range: Range,
        items: &[SheetItem],
        unused: &[bool],
    ) -> Result<(), NoMemory>
        requires { length unused.now ≡ length items.now }
        ensures gone { OnOk result (self.new.gone.items ≡ self.old.gone.items
            ++ (list_all (λ g. g) unused.now && not (is_fixed_by text.now (length self.old.gone.items) range (map item_of items.now))) ∷ []) }
        ensures cuts { OnOk result (self.new.cuts.items ≡ self.old.cuts.items
            ++ (if is_fixed_by text.now (length self.old.gone.items) range (map item_of items.now) then [] else spec.list_cuts (flagged items.now unused.now))) }
    {
        if all_stay(unused) {
            self.keep_rule()?;
            return Ok(());
        }
        let fixed = is_fixed(text, self.gone.len(), range, items);
        self.gone.push(all_unused(unused) && !fixed)?;
        if fixed {
            return Ok(());
        }
        push_list(items, unused, &mut self.cuts)
    }
}

/// What becomes of the rules of a sheet, whose selectors stand by their rules. Linear in the text and the selectors.
pub(crate) fn fates_of(
    alloc: Global,
    text: &[u8],
    sheet: &Sheet,
    unused: &[bool],
) -> Result<Fates, NoMemory>
    requires count { length unused.now ≡ length sheet.now.items }
    requires in_order { AreInOrder 0 (map item_of sheet.now.items) }
    ensures gone { IfOk result (λ f. f.gone.items ≡ spec.gone_rules text.now 0 sheet.now.rules (flagged sheet.now.items unused.now)) }
    ensures cuts { IfOk result (λ f. f.cuts.items ≡ spec.lists_cuts text.now 0 sheet.now.rules (flagged sheet.now.items unused.now)) }
{
    let mut fates = Fates {
        gone: Vec::new(alloc),
        cuts: Vec::new(alloc),
    };
    let mut items = sheet.items.items();
    let mut flags = unused;
    let mut rules = sheet.rules.items();
    'rules: while let Some((range, later)) = rules.split_first() {
        let count = leading_count(fates.gone.len(), items);
        let (list, later_items) = items.split_at(count);
        let (list_flags, later_flags) = flags.split_at(count);
        fates.add_rule(text, *range, list, list_flags)?;
        items = later_items;
        flags = later_flags;
        rules = later;
    }
    Ok(fates)
}
