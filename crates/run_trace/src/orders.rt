//! The order of answers in which common prefixes of their runs stand together.
use crate::shown::{Task, shown_at};
use crate::traces::numbers_of;
use std::alloc::Global;
use tp_base::NoMemory;

// The numbers of the statements of an item's steps.
#[derive(Debug, PartialEq, Eq, PartialOrd, Ord, Drop)]
struct RunList {
    runs: Vec<u32>,
    item: usize,
}

/// The numbers of the items whose answers show steps, in the order of their runs. It costs a sort of these lists of runs. Time alone
/// rests on it: a list that is missing or stands elsewhere is done by itself.
pub(crate) fn in_order(alloc: Global, task: &Task) -> Result<Vec<usize>, NoMemory> {
    let mut lists = lists_of(alloc, task)?;
    lists.sort()?;
    let mut order = Vec::new(alloc);
    for list in &lists {
        order.push(list.item)?;
    }
    Ok(order)
}

fn lists_of(alloc: Global, task: &Task) -> Result<Vec<RunList>, NoMemory> {
    let mut lists = Vec::new(alloc);
    for item in 0..task.items.len() {
        if let Some(shown) = shown_at(task, item) {
            let runs = numbers_of(alloc, shown.steps)?;
            lists.push(RunList { runs, item })?;
        }
    }
    Ok(lists)
}
