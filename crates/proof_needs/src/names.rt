//! For each triple, the triples that its items name.
ghost use Rattle.std.specs.Prelude.{◌≡◌, ◌<◌, ℕ, Some, length, map, slice_get, option_and_then, IfOk};
ghost use Rattle.proof_needs.specs.declared.needs.Draft.{Draft};
ghost use Rattle.proof_needs.specs.declared.orders.Order.{Order};
ghost use Rattle.proof_needs.specs.Names.{named_all, names_in};
ghost use Rattle.proof_needs.specs.Numbers.{Tours};

use crate::needs::Draft;
use crate::numbers::order_of;
use crate::orders::{Order, Orders};
use indexmap::IndexSet;
use std::alloc::Global;
use tp_base::NoMemory;

/// The triples that the page leads to, in the order of their numbers. Linear in all items, on average.
pub fn numbers_of(
    alloc: Global,
    drafts: &[Draft],
    orders: &Orders,
) -> Result<IndexSet<usize>, NoMemory>
    requires named { (i n : ℕ) (d : Draft) → slice_get drafts.now i ≡ Some d → d.triple ≡ Some n → n < length orders.now.triples.items }
    ensures { IfOk result (λ order. Tours (names_in drafts.now orders.now.triples.items) (named_all drafts.now orders.now.page.wants.items) order.keys) }
{
    let names = named_by_each(alloc, drafts, &orders.triples)?;
    let roots = named_by(alloc, drafts, &orders.page.wants)?;
    let order = order_of(alloc, &names, &roots)?;
    Ok(order)
}

fn named_by_each(
    alloc: Global,
    drafts: &[Draft],
    orders: &[Order],
) -> Result<Vec<Vec<usize>>, NoMemory>
    ensures { IfOk result (λ names. map (λ v. v.items) names.items ≡ map (λ (o : Order). named_all drafts.now o.wants.items) orders.now) }
{
    let mut names = Vec::new(alloc);
    for order in orders {
        names.push(named_by(alloc, drafts, &order.wants)?)?;
    }
    Ok(names)
}

fn named_by(alloc: Global, drafts: &[Draft], wants: &[usize]) -> Result<Vec<usize>, NoMemory>
    ensures { IfOk result (λ v. v.items ≡ named_all drafts.now wants.now) }
{
    let mut named = Vec::new(alloc);
    for want in wants {
        if let Some(triple) = named_at(drafts, *want) {
            named.push(triple)?;
        }
    }
    Ok(named)
}

// The triple that the item of a want names, if it names one.
fn named_at(drafts: &[Draft], want: usize) -> Option<usize>
    ensures { result ≡ option_and_then (λ (d : Draft). d.triple) (slice_get drafts.now want) }
{
    match drafts.get(want) {
        Some(draft) => draft.triple,
        None => None,
    }
}
