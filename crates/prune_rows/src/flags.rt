//! Which selectors of a sheet are unused.
ghost use Rattle.std.specs.Prelude.{◌≡◌, length, map, IfOk};
ghost use Rattle.css_read.specs.Effects.{AreJudged};
ghost use Rattle.css_read.specs.Pruned.{with_flags};
ghost use Rattle.css_read.specs.Views.{item_of};
ghost use Rattle.prune_rows.specs.Flags.{CanGo};

use css_read::{Outcome, SheetItem};
use std::alloc::Global;
use tp_base::NoMemory;

/// Flags those that are judged and written as one of the words.
pub(crate) fn flags_of(
    alloc: Global,
    words: &str,
    text: &[u8],
    items: &[SheetItem],
) -> Result<Vec<bool>, NoMemory>
    ensures count { IfOk result (λ v. length v.items ≡ length items.now) }
    ensures judged { IfOk result (λ v. AreJudged (with_flags (map item_of items.now) v.items)) }
{
    let mut flags = Vec::new(alloc);
    let mut rest = items;
    'items: while let Some((item, later)) = rest.split_first() {
        let goes = is_unused(words, text, item);
        flags.push(goes)?;
        rest = later;
    }
    Ok(flags)
}

fn is_unused(words: &str, text: &[u8], item: &SheetItem) -> bool
    ensures { CanGo result (item_of item.now) }
{
    match item.outcome {
        Outcome::Skipped(..) => false,
        Outcome::Judged(_) => is_named(words, text, item),
    }
}

fn is_named(words: &str, text: &[u8], item: &SheetItem) -> bool {
    let Some(bytes) = text.get(item.from..item.to) else {
        return false;
    };
    for word in words.split_whitespace() {
        if word.as_bytes() == bytes {
            return true;
        }
    }
    false
}
