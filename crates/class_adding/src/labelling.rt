//! The labels of a page at the fixpoint.
ghost use Rattle.std.specs.Prelude.{◌≡◌, map, IfOk};
ghost use Rattle.tree_sem.specs.Order.{paths_of};
ghost use Rattle.node_marks.specs.Numbering.{IsNumbering};
ghost use Rattle.simple_core.specs.Pairs.{Asked};
ghost use Rattle.closed_page.specs.ClosedPages.{IsClosedPage};
ghost use Rattle.closed_page.specs.Firsts.{AreOfNodes};
ghost use Rattle.closed_page.specs.Views.{firsts_of};
ghost use Rattle.folded_page.specs.Folding.{IsFolded};
ghost use Rattle.class_adding.specs.Closing.{MayClose, Closes};

use crate::asker::Asker;
use crate::filling::begin;
use closed_page::{PageLabels, SharedSets, spread};
use folded_page::{Folded, folded};
use node_marks::{Columns, NumberedTree};
use pair_table::PairTable;
use rule_index::IndexedSystem;
use simple_core::{GainFault, Summaries};
use std::alloc::Global;
use tp_base::NoMemory;
use tree_sem::Tree;

// The nodes of a page by their numbers.
fn columns_of<'a>(alloc: Global, page: &'a Tree) -> Result<Columns<'a>, NoMemory>
    ensures { IfOk result (λ c. IsNumbering page.now c.parents.items c.steps.items (map (λ b. b.now) c.labels.items)) }
{
    let numbered = NumberedTree::new(alloc, page)?;
    Ok(numbered.into_columns())
}

// Those that all nodes come to have by rounds over them.
fn last_labels<S: Summaries>(
    alloc: Global,
    page: &Tree,
    columns: Columns<'_>,
    system: &IndexedSystem,
    sums: &mut S,
) -> Result<PageLabels, GainFault>
    requires columns { IsNumbering page.now columns.parents.items columns.steps.items (map (λ b. b.now) columns.labels.items) }
    requires may { MayClose S.Summaries system.now sums.old }
    ensures closed { IfOk result (λ l. IsClosedPage system.now page.now (record { labels = l.labels; firsts = firsts_of l.firsts })) }
    ensures of_nodes { IfOk result (λ l. AreOfNodes l.nodes l.firsts) }
    ensures nodes { IfOk result (λ l. l.nodes ≡ paths_of page.now) }
    ensures went { Closes S.Summaries system.now (Asked system.now page.now) result sums.old sums.new }
{
    let mut filling = begin(alloc, page, columns)?;
    let mut remembered = PairTable::new(alloc);
    let mut sets = SharedSets::new(alloc)?;
    let mut asker = Asker {
        system,
        sums,
        remembered: &mut remembered,
        sets: &mut sets,
    };
    asker.fill(alloc, page, &mut filling)?;
    Ok(filling.labels)
}

// Those that the nodes' images come to have in the folded page.
fn image_labels<S: Summaries>(
    alloc: Global,
    page: &Tree,
    columns: Columns<'_>,
    folded: &Folded,
    system: &IndexedSystem,
    sums: &mut S,
) -> Result<PageLabels, GainFault>
    requires columns { IsNumbering page.now columns.parents.items columns.steps.items (map (λ b. b.now) columns.labels.items) }
    requires may { MayClose S.Summaries system.now sums.old }
    requires folded { IsFolded page.now folded.now.tree folded.now.numbers.items }
    ensures closed { IfOk result (λ l. IsClosedPage system.now page.now (record { labels = l.labels; firsts = firsts_of l.firsts })) }
    ensures of_nodes { IfOk result (λ l. AreOfNodes l.nodes l.firsts) }
    ensures went { Closes S.Summaries system.now (Asked system.now page.now) result sums.old sums.new }
{
    let images = columns_of(alloc, &folded.tree)?;
    let labels = last_labels(alloc, &folded.tree, images, system, sums)?;
    let spread = spread(alloc, page, columns, &folded.numbers, labels)?;
    Ok(spread)
}

/// The labels of the page's nodes: those of their images, where the page is folded. It costs what closing the page costs.
pub(crate) fn page_labels<S: Summaries>(
    alloc: Global,
    page: &Tree,
    system: &IndexedSystem,
    sums: &mut S,
) -> Result<PageLabels, GainFault>
    requires { MayClose S.Summaries system.now sums.old }
    ensures closed { IfOk result (λ l. IsClosedPage system.now page.now (record { labels = l.labels; firsts = firsts_of l.firsts })) }
    ensures of_nodes { IfOk result (λ l. AreOfNodes l.nodes l.firsts) }
    ensures went { Closes S.Summaries system.now (Asked system.now page.now) result sums.old sums.new }
{
    let columns = columns_of(alloc, page)?;
    match folded(alloc, page, &columns)? {
        Some(folded) => image_labels(alloc, page, columns, &folded, system, sums),
        None => last_labels(alloc, page, columns, system, sums),
    }
}
