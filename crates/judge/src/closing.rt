//! The closed page, within a limit of pairs or by diagrams.
ghost use Rattle.std.specs.Prelude.{◌≡◌, ◌<◌, [], None, All, length, Contains, IfOk, OnOk, IsErrOf};
ghost use Rattle.simple_core.specs.Systems.{IsSound};
ghost use Rattle.simple_core.specs.Pairs.{Pair, Asked, Needed, HasMore};
ghost use Rattle.closed_page.specs.ClosedPages.{IsClosedPage};

use class_adding::{Closed, close_page};
use need_table::PlainSummaries;
use saturation::SharedSummaries;
use simple_core::{GainFault, System};
use std::alloc::Global;
use tp_base::NoMemory;
use tree_sem::Tree;

/// Closes the page by an empty table of pairs, where no more pairs are needed than its limit. The cost is that of `close_page` over
/// the table.
pub(crate) fn close_by_table(
    alloc: Global,
    page: &Tree,
    system: &System,
    sums: &mut PlainSummaries,
) -> Result<Closed, GainFault>
    requires sound { IsSound system.now }
    requires made { sums.old.system ≡ system.now }
    requires none { sums.old.known ≡ [] }
    requires unspent { sums.old.spent ≡ None }
    ensures closed { IfOk result (λ c. IsClosedPage system.now page.now c) }
    ensures made { OnOk result (sums.new.system ≡ system.now) }
    ensures known { OnOk result ((q : Pair) → Asked system.now page.now q → Contains sums.new.known q) }
    ensures few { OnOk result (¬ HasMore (Needed system.now (Asked system.now page.now)) sums.old.pairs) }
    ensures spent { IsErrOf result GainFault.Spent → HasMore (Needed system.now (Asked system.now page.now)) sums.old.pairs }
{
    close_page(alloc, page, system, sums)
}

/// Closes the page by diagrams. The cost is that of `close_page` over them.
pub(crate) fn close_by_diagrams(
    alloc: Global,
    page: &Tree,
    system: &System,
    sums: &mut SharedSummaries,
) -> Result<Closed, NoMemory>
    requires sound { IsSound system.now }
    requires made { sums.old.system ≡ system.now }
    ensures closed { IfOk result (λ c. IsClosedPage system.now page.now c) }
    ensures made { sums.new.system ≡ system.now }
    ensures known { OnOk result ((q : Pair) → Asked system.now page.now q → (q.0 < length sums.new.system.kinds) × All (Contains sums.new.system.visible) q.1) }
{
    match close_page(alloc, page, system, sums) {
        Ok(closed) => Ok(closed),
        Err(GainFault::Memory) => Err(NoMemory),
        // Only building diagrams can use up a budget.
        Err(GainFault::Spent) => unreachable!(),
    }
}
