//! A text without some ranges, which are sorted and skipped.
ghost use Rattle.std.specs.Prelude.{◌≡◌, ◌++◌, ℕ, max, drop, slice_range, IfOk, OnOk};
ghost use Rattle.std.specs.List.{list_any};
ghost use Rattle.css_read.specs.Pruned as spec;
ghost use Rattle.css_prune.specs.Copying.{RiseFrom};

use crate::parts::{between, from_offset};
use css_read::Range;
use std::alloc::{AllocError, Global};
use tp_base::NoMemory;

// Puts ranges in the order of their first bytes. They come as a few runs that are in order, and these are joined.
fn sort(ranges: &mut Vec<Range>) -> Result<(), AllocError>
    ensures same { OnOk result ((at : ℕ) → list_any (spec.is_in at) ranges.new.items ≡ list_any (spec.is_in at) ranges.old.items) }
    ensures order { OnOk result (RiseFrom 0 ranges.new.items) }
{
    ranges.sort_by_key(|range| range.from)?;
    Ok(())
}

// Copies what stands between two offsets behind another text.
fn copy(kept: &mut Vec<u8>, text: &[u8], from: usize, to: usize) -> Result<(), NoMemory>
    ensures { OnOk result (kept.new.items ≡ kept.old.items ++ slice_range text.now from to) }
{
    kept.extend_from_slice(between(text, from, to))?;
    Ok(())
}

// Copies what stands behind an offset.
fn copy_rest(kept: &mut Vec<u8>, text: &[u8], from: usize) -> Result<(), NoMemory>
    ensures { OnOk result (kept.new.items ≡ kept.old.items ++ drop from text.now) }
{
    kept.extend_from_slice(from_offset(text, from))?;
    Ok(())
}

// Where to go on behind a range: not before the place that was reached.
fn behind(at: usize, range: Range) -> usize
    ensures { result ≡ max (max at range.from) range.to }
{
    at.max(range.from).max(range.to)
}

// A text without ranges in their order.
fn without_risen(alloc: Global, text: &[u8], ranges: &[Range]) -> Result<Vec<u8>, NoMemory>
    requires { RiseFrom 0 ranges.now }
    ensures { IfOk result (λ v. v.items ≡ spec.without ranges.now 0 text.now) }
{
    let mut kept = Vec::with_capacity(alloc, text.len())?;
    let mut at = 0;
    let mut rest = ranges;
    'copied: while let Some((range, later)) = rest.split_first() {
        copy(&mut kept, text, at, range.from)?;
        let next = behind(at, *range);
        at = next;
        rest = later;
    }
    copy_rest(&mut kept, text, at)?;
    Ok(kept)
}

/// A text without the bytes that stand in a range: what stands between two of them is copied whole. Linear in both,
/// but for the sort.
pub(crate) fn without(
    alloc: Global,
    text: &[u8],
    mut ranges: Vec<Range>,
) -> Result<Vec<u8>, NoMemory>
    ensures { IfOk result (λ v. v.items ≡ spec.without ranges.items 0 text.now) }
{
    sort(&mut ranges)?;
    let kept = without_risen(alloc, text, ranges.as_slice())?;
    Ok(kept)
}
