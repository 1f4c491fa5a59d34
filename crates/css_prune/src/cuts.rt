//! The ranges of a sheet that are deleted.
ghost use Rattle.std.specs.Prelude.{◌≡◌, ◌≤◌, ◌==◌, ◌||◌, ◌++◌, not, length, IfOk, OnOk, map};
ghost use Rattle.std.specs.List.{list_any};
ghost use Rattle.tp_base.specs.declared.places.TheConstants.{MOST_BYTES};
ghost use Rattle.css_read.specs.Holders.{holders_of, owners_of};
ghost use Rattle.css_read.specs.Pruned as spec;
ghost use Rattle.css_read.specs.Views.{item_of, sheet_of};
ghost use Rattle.css_prune.specs.Groups.{AreInOrder};
ghost use Rattle.css_prune.specs.Parts as parts;

use crate::holders::gone_holders;
use crate::parts::from_byte;
use crate::rules::{any_goes, fates_of};
use css_read::{Holder, Range, Sheet, read_holders};
use std::alloc::Global;
use tp_base::NoMemory;

// Puts the rules that go behind some ranges.
fn push_rules(rules: &[Range], gone: &[bool], ranges: &mut Vec<Range>) -> Result<(), NoMemory>
    ensures { OnOk result (ranges.new.items ≡ ranges.old.items ++ spec.gone_ranges rules.now gone.now) }
{
    let mut rest = rules;
    let mut flags = gone;
    'rules: while let Some((range, later)) = rest.split_first() {
        let Some((goes, later_flags)) = flags.split_first() else {
            return Ok(());
        };
        if *goes {
            ranges.push(*range)?;
        }
        rest = later;
        flags = later_flags;
    }
    Ok(())
}

// Puts the holders that go behind some ranges.
fn push_holders(holders: &[Holder], gone: &[bool], ranges: &mut Vec<Range>) -> Result<(), NoMemory>
    ensures { OnOk result (ranges.new.items ≡ ranges.old.items ++ spec.gone_ranges (spec.wholes holders.now) gone.now) }
{
    let mut rest = holders;
    let mut flags = gone;
    'holders: while let Some((holder, later)) = rest.split_first() {
        let Some((goes, later_flags)) = flags.split_first() else {
            return Ok(());
        };
        if *goes {
            ranges.push(Range {
                from: holder.from,
                to: holder.to,
            })?;
        }
        rest = later;
        flags = later_flags;
    }
    Ok(())
}

// Whether surely no holder goes: where no rule goes none does, and without an `@` there is none.
fn none_can_go(text: &[u8], rules: &[bool]) -> bool
    ensures { result ≡ (not (list_any (λ g. g) rules.now) || length (parts.from_byte 64 text.now) == 0) }
{
    !any_goes(rules) || from_byte(b'@', text).is_empty()
}

// Puts the holders of a text that go behind some ranges, by which rules go. The text is read once more, unless none can.
fn push_gone_holders(
    alloc: Global,
    text: &[u8],
    rules: &[bool],
    ranges: &mut Vec<Range>,
) -> Result<(), NoMemory>
    requires { length text.now ≤ MOST_BYTES }
    ensures { let holders = holders_of text.now in
        OnOk result (ranges.new.items ≡ ranges.old.items ++ spec.gone_ranges (spec.wholes holders) (spec.gone_holders (owners_of text.now) rules.now 0 holders)) }
{
    if none_can_go(text, rules) {
        return Ok(());
    }
    let holders = read_holders(alloc, text)?;
    let gone = gone_holders(alloc, &holders, rules)?;
    push_holders(holders.holders.items(), gone.as_slice(), ranges)
}

/// What goes of a sheet whose selectors stand by their rules. Linear in the text and the selectors.
#[tactic(auto, unfolding(css_read::specs::Pruned::cuts))]
pub(crate) fn cuts(
    alloc: Global,
    text: &[u8],
    sheet: &Sheet,
    unused: &[bool],
) -> Result<Vec<Range>, NoMemory>
    requires in_limit { length text.now ≤ MOST_BYTES }
    requires count { length unused.now ≡ length sheet.now.items }
    requires in_order { AreInOrder 0 (map item_of sheet.now.items) }
    ensures { IfOk result (λ v. v.items ≡ spec.cuts text.now (sheet_of sheet.now) unused.now) }
{
    let fates = fates_of(alloc, text, sheet, unused)?;
    let mut ranges = Vec::new(alloc);
    push_gone_holders(alloc, text, fates.gone.as_slice(), &mut ranges)?;
    push_rules(sheet.rules.items(), fates.gone.as_slice(), &mut ranges)?;
    ranges.extend_from_slice(fates.cuts.as_slice())?;
    Ok(ranges)
}
