//! The folded page, built from the representative of each node.
ghost use Rattle.std.specs.Prelude.{◌≡◌, ◌+◌, ◌<◌, map, length, IfOk, IfSome};
ghost use Rattle.std.specs.Bool.{OnTrue};
ghost use Rattle.folded_page.specs.Built.{AreFoldable, IsFoldedTo, IsFolding};

use crate::page_builder::PageBuilder;
use node_marks::Columns;
use std::alloc::Global;
use tp_base::NoMemory;
use tree_sem::Tree;

/// A page in which like children of one node are folded to one, and for each node of the page itself the number of the node
/// that represents it.
#[derive(Drop)]
pub struct Folded {
    pub tree: Tree,
    pub numbers: Vec<usize>,
}

/// The folded page, from the leads of the page's nodes; nothing where it can't be built. Linear in the page's nodes and in the
/// labels of those that are their own leads.
pub(crate) fn built(
    alloc: Global,
    columns: &Columns<'_>,
    leads: &[usize],
) -> Result<Option<Folded>, NoMemory>
    requires { AreFoldable columns.now.parents.items leads.now (map (λ b. b.now) columns.now.labels.items) }
    ensures folded { IfOk result (λ o. IfSome o (λ f. IsFoldedTo columns.now.parents.items leads.now (map (λ b. b.now) columns.now.labels.items) f.tree f.numbers.items)) }
    ensures whole { IfOk result (λ o. IfSome o (λ f. length f.numbers.items ≡ length columns.now.parents.items)) }
{
    let mut folding = Folding::new(alloc, columns, leads)?;
    'nodes: for node in 1..leads.len() {
        if !folding.enter(columns, leads, node)? {
            return Ok(None);
        }
    }
    Ok(Some(folding.finish()))
}

// The folded page so far, and the numbers in it of the page's first nodes.
#[derive(Drop)]
struct Folding {
    page: PageBuilder,
    numbers: Vec<usize>,
}

impl Folding {
    // The root alone.
    fn new(alloc: Global, columns: &Columns<'_>, leads: &[usize]) -> Result<Folding, NoMemory>
        requires { AreFoldable columns.now.parents.items leads.now (map (λ b. b.now) columns.now.labels.items) }
        ensures { IfOk result (λ f. IsFolding columns.now.parents.items leads.now (map (λ b. b.now) columns.now.labels.items) f.page.builder f.page.line.items f.page.count f.numbers.items 1) }
    {
        let page = PageBuilder::new(alloc, columns.labels[0].copy()?)?;
        let mut numbers = Vec::new(alloc);
        numbers.push(0)?;
        Ok(Folding { page, numbers })
    }

    // Gives the page's next node the number of its lead, or a number of its own; false where it can't be added.
    fn enter(
        &mut self,
        columns: &Columns<'_>,
        leads: &[usize],
        node: usize,
    ) -> Result<bool, NoMemory>
        requires foldable { AreFoldable columns.now.parents.items leads.now (map (λ b. b.now) columns.now.labels.items) }
        requires so_far { IsFolding columns.now.parents.items leads.now (map (λ b. b.now) columns.now.labels.items) self.old.page.builder self.old.page.line.items self.old.page.count self.old.numbers.items node }
        requires within { node < length leads.now }
        ensures { IfOk result (λ more. OnTrue more (IsFolding columns.now.parents.items leads.now (map (λ b. b.now) columns.now.labels.items) self.new.page.builder self.new.page.line.items self.new.page.count self.new.numbers.items (node + 1))) }
    {
        let lead = leads[node];
        if lead < node {
            let number = self.numbers[lead];
            self.numbers.push(number)?;
            return Ok(true);
        }
        let parent = columns.parents[node];
        let above = self.numbers[parent];
        let label = columns.labels[node].copy()?;
        let Some(number) = self.page.add(above, label)? else {
            return Ok(false);
        };
        self.numbers.push(number)?;
        Ok(true)
    }

    fn finish(self) -> Folded
        ensures tree { result.tree ≡ self.page.builder.tree }
        ensures numbers { result.numbers ≡ self.numbers }
    {
        Folded {
            tree: self.page.finish(),
            numbers: self.numbers,
        }
    }
}
