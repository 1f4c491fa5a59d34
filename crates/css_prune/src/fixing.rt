//! Rules that stay as they are, whatever is unused.
ghost use Rattle.std.specs.Prelude.{◌≡◌, ◌&&◌, ◌||◌, drop, map};
ghost use Rattle.std.specs.List.{list_any};
ghost use Rattle.std.specs.Char.{to_ascii_lowercase};
ghost use Rattle.css_read.specs.Pruned as spec;
ghost use Rattle.css_read.specs.Units as units;
ghost use Rattle.css_read.specs.Views.{item_of};
ghost use Rattle.css_prune.specs.Flags as flags;

use crate::parts::{between, first_bytes, from_byte, from_offset};
use css_read::{Outcome, Range, SheetItem};
use sel_text::is_word;

// The bytes of a selector.
fn bytes_of<'a>(text: &'a [u8], item: &SheetItem) -> &'a [u8]
    ensures { result.now ≡ flags.bytes_at text.now (item_of item.now) }
{
    between(text, item.from, item.to)
}

// Whether a text begins with a word, without regard to ASCII case.
fn begins_with_word(word: &[u8], text: &[u8]) -> bool
    ensures { result ≡ flags.begins_word (map to_ascii_lowercase word.now) text.now }
{
    is_word(first_bytes(text, word.len()), word)
}

// Whether a text begins with `@import` or `@namespace`, without regard to ASCII case.
fn begins_early_rule(text: &[u8]) -> bool
    ensures { result ≡ flags.begins_early_rule text.now }
{
    begins_with_word(b"@import", text) || begins_with_word(b"@namespace", text)
}

// Whether such a rule stands anywhere in a text. Linear in it, and nothing is compared but where an `@` stands.
fn has_early_rule(text: &[u8]) -> bool
    ensures { result ≡ flags.has_early_rule text.now }
{
    let mut rest = from_byte(b'@', text);
    'places: while let Some((_, behind)) = rest.split_first() {
        if begins_early_rule(rest) {
            return true;
        }
        let next = from_byte(b'@', behind);
        rest = next;
    }
    false
}

// Whether a text begins with a byte order mark.
fn begins_order_mark(text: &[u8]) -> bool
    ensures { result ≡ flags.begins_order_mark text.now }
{
    text.starts_with(b"\xEF\xBB\xBF")
}

// Whether one stands anywhere in a text.
fn has_order_mark(text: &[u8]) -> bool
    ensures { result ≡ spec.has_order_mark text.now }
{
    let mut rest = from_byte(0xEF, text);
    'places: while let Some((_, behind)) = rest.split_first() {
        if begins_order_mark(rest) {
            return true;
        }
        let next = from_byte(0xEF, behind);
        rest = next;
    }
    false
}

// Whether what follows a rule would be read otherwise if it came first.
#[tactic(auto, unfolding(css_read::specs::Pruned::holds_back))]
fn holds_back(text: &[u8], range: Range) -> bool
    ensures { result ≡ spec.holds_back text.now range }
{
    has_early_rule(from_offset(text, range.to)) || has_order_mark(from_offset(text, range.from))
}

// Whether a selector that isn't judged has a quote.
fn has_quote(text: &[u8], item: &SheetItem) -> bool
    ensures { result ≡ flags.has_string text.now (item_of item.now) }
{
    match item.outcome {
        Outcome::Judged(_) => false,
        Outcome::Skipped(..) => any_quote(bytes_of(text, item)),
    }
}

fn any_quote(bytes: &[u8]) -> bool
    ensures { result ≡ list_any units.is_quote bytes.now }
{
    bytes.iter().any(|byte| *byte == b'"' || *byte == b'\'')
}

fn any_has_quote(text: &[u8], items: &[SheetItem]) -> bool
    ensures { result ≡ list_any (flags.has_string text.now) (map item_of items.now) }
{
    let mut rest = items;
    'items: while let Some((item, later)) = rest.split_first() {
        if has_quote(text, item) {
            return true;
        }
        rest = later;
    }
    false
}

fn is_at_rule(text: &[u8], item: &SheetItem) -> bool
    ensures { result ≡ flags.begins_at_rule text.now (item_of item.now) }
{
    match bytes_of(text, item) {
        [] => false,
        [first, ..] => *first == b'@',
    }
}

fn any_at_rule(text: &[u8], items: &[SheetItem]) -> bool
    ensures { result ≡ list_any (flags.begins_at_rule text.now) (map item_of items.now) }
{
    let mut rest = items;
    'items: while let Some((item, later)) = rest.split_first() {
        if is_at_rule(text, item) {
            return true;
        }
        rest = later;
    }
    false
}

fn later_at_rule(text: &[u8], items: &[SheetItem]) -> bool
    ensures { result ≡ list_any (flags.begins_at_rule text.now) (drop 1 (map item_of items.now)) }
{
    match items.split_first() {
        None => false,
        Some((_, later)) => any_at_rule(text, later),
    }
}

/// Whether a rule stays as it is, by its number, its range and its selectors. Linear in the bytes of its list, and
/// for the first rule in the text.
pub(crate) fn is_fixed(text: &[u8], rule: usize, range: Range, items: &[SheetItem]) -> bool
    ensures { result ≡ flags.is_fixed_by text.now rule range (map item_of items.now) }
{
    rule == 0 && holds_back(text, range) || later_at_rule(text, items) || any_has_quote(text, items)
}
