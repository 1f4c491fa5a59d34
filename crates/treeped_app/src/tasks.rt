//! The request of a run, and the source of its texts.
ghost use Rattle.std.specs.Prelude.{◌≡◌, ◌≤◌, ◌+◌, ◌*◌, Some, true, false, is_some, length, IfSome};
ghost use Rattle.limits.specs.Budgets.{IsInRange};
ghost use Rattle.limits.specs.declared.pages.TheConstants.{MOST_PAGES};
ghost use Rattle.triple_gen.specs.declared.triple.TheConstants.{MOST_BOXES};
ghost use Rattle.command_words.specs.declared.words.Mode as modes;
ghost use Rattle.command_words.specs.Orders.{takes_pages, is_named};
ghost use Rattle.treeped_app.specs.Tasks as spec;
ghost use Rattle.treeped_app.specs.Views.{source_of};

use command_words::{Mode, Order, Word};
use limits::Limits;

/// The mode of a run on a page or a site, and the limits within which it is judged.
#[derive(Clone, Copy)]
pub(crate) struct Request<'a> {
    pub(crate) mode: Mode,
    pub(crate) limits: &'a Limits,
    ghost in_range: { IsInRange limits.now },
}

/// The names of the three files of a page.
#[derive(Clone, Copy)]
pub(crate) struct Names<'a> {
    pub(crate) page: &'a str,
    pub(crate) sheet: &'a str,
    pub(crate) script: &'a str,
}

/// The names of the first page's files with the sheet, and of the later pages, each with its script.
#[derive(Clone, Copy)]
pub(crate) struct Pages<'a> {
    pub(crate) first: Names<'a>,
    pub(crate) later: &'a [Word],
}

/// The source of a run's texts: a page; several pages that use one sheet; or a ring of boxes, which is generated.
#[derive(Clone, Copy)]
pub(crate) enum Source<'a> {
    One(Names<'a>),
    Several(Pages<'a>),
    Ring(u32),
}

/// The source that an order names.
pub(crate) fn source_of(order: &Order) -> Source<'_>
    requires named { is_named order.now.mode (is_some order.now.size) (length order.now.names) ≡ true }
    requires few { IfSome order.now.size (λ n. n ≤ MOST_BOXES) }
    requires short { length order.now.names ≤ 2 * MOST_PAGES + 1 }
    ensures source { spec.source_by order.now.mode order.now.names order.now.size ≡ Some (source_of result) }
    ensures few { spec.IsFew (source_of result) }
    ensures mode { spec.IsOfMode order.now.mode (source_of result) }
{
    match order.size {
        Some(n) => Source::Ring(n),
        None if order.mode.takes_pages() => site_of(order.names.items()),
        None => page_of(order.names.items()),
    }
}

// The names of a page, a sheet and a script.
fn page_of(names: &[Word]) -> Source<'_>
    requires three { length names.now ≡ 3 }
    ensures source { spec.page_of names.now ≡ Some (source_of result) }
    ensures one { (m : modes.Mode) → takes_pages m ≡ false → spec.IsOfMode m (source_of result) }
    ensures few { spec.IsFew (source_of result) }
{
    match names {
        [page, sheet, script] => Source::One(Names {
            page: page.as_str(),
            sheet: sheet.as_str(),
            script: script.as_str(),
        }),
        _ => unreachable!(),
    }
}

// The names of a sheet, and of pages with their scripts.
fn site_of(names: &[Word]) -> Source<'_>
    requires long { 3 ≤ length names.now }
    requires short { length names.now ≤ 2 * MOST_PAGES + 1 }
    ensures source { spec.site_of names.now ≡ Some (source_of result) }
    ensures several { (m : modes.Mode) → takes_pages m ≡ true → spec.IsOfMode m (source_of result) }
    ensures few { spec.IsFew (source_of result) }
{
    match names {
        [sheet, page, script, later @ ..] => {
            let first = Names {
                page: page.as_str(),
                sheet: sheet.as_str(),
                script: script.as_str(),
            };
            Source::Several(Pages { first, later })
        }
        _ => unreachable!(),
    }
}
