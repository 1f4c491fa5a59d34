//! The ranges that are deleted from the list of a rule that stays.
ghost use Rattle.std.specs.Prelude.{◌≡◌, ◌-◌, ◌++◌, if◌then◌else◌, List, length, map, OnOk};
ghost use Rattle.css_read.specs.Pruned.{list_cuts};
ghost use Rattle.css_read.specs.Views.{item_of};
ghost use Rattle.css_prune.specs.Flags.{flagged, staying, end_of};
ghost use Rattle.css_prune.specs.Lists.{item_cut, end_cut};

use css_read::{Range, SheetItem};
use tp_base::NoMemory;

// How many selectors stay.
fn count_staying(unused: &[bool]) -> usize
    ensures { result ≡ staying unused.now }
{
    let mut count = 0;
    let mut rest = unused;
    'flags: while let Some((goes, later)) = rest.split_first() {
        if !*goes {
            count += 1;
        }
        rest = later;
    }
    count
}

// Where the last of some selectors ends.
fn last_end(to: usize, items: &[SheetItem]) -> usize
    ensures { result ≡ end_of to (map item_of items.now) }
{
    let mut end = to;
    let mut rest = items;
    'items: while let Some((item, later)) = rest.split_first() {
        end = item.to;
        rest = later;
    }
    end
}

// Puts what goes behind the last selector that stays behind some ranges.
fn push_end(
    item: &SheetItem,
    goes: bool,
    later: &[SheetItem],
    ranges: &mut Vec<Range>,
) -> Result<(), NoMemory>
    ensures { OnOk result (ranges.new.items ≡ ranges.old.items ++ end_cut (item_of item.now) goes (map item_of later.now)) }
{
    if goes || later.is_empty() {
        return Ok(());
    }
    let to = last_end(item.to, later);
    ranges.push(Range { from: item.to, to })?;
    Ok(())
}

// Puts what goes with a selector before one that stays behind some ranges.
fn push_item(
    item: &SheetItem,
    goes: bool,
    next: &SheetItem,
    ranges: &mut Vec<Range>,
) -> Result<(), NoMemory>
    ensures { OnOk result (ranges.new.items ≡ ranges.old.items ++ item_cut (item_of item.now) goes (item_of next.now)) }
{
    if goes {
        ranges.push(Range {
            from: item.from,
            to: next.from,
        })?;
    }
    Ok(())
}

// How many stay behind a selector, by how many stay from it on.
fn left_behind(left: usize, goes: bool) -> usize
    ensures { result ≡ (if goes then left else left - 1) }
{
    if goes { left } else { left.saturating_sub(1) }
}

/// Puts what goes of a rule's list behind some ranges. Linear in the list.
pub(crate) fn push_list(
    items: &[SheetItem],
    unused: &[bool],
    ranges: &mut Vec<Range>,
) -> Result<(), NoMemory>
    requires { length unused.now ≡ length items.now }
    ensures { OnOk result (ranges.new.items ≡ ranges.old.items ++ list_cuts (flagged items.now unused.now)) }
{
    let mut left = count_staying(unused);
    let mut rest = items;
    let mut flags = unused;
    'items: while let Some((item, later)) = rest.split_first() {
        let Some((goes, later_flags)) = flags.split_first() else {
            return Ok(());
        };
        left = left_behind(left, *goes);
        let Some(next) = later.first() else {
            return Ok(());
        };
        if left == 0 {
            push_end(item, *goes, later, ranges)?;
            return Ok(());
        }
        push_item(item, *goes, next, ranges)?;
        rest = later;
        flags = later_flags;
    }
    Ok(())
}
