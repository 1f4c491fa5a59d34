//! The numbers of entries, in topological order: a triple comes after those that its items name.
ghost use Rattle.std.specs.Prelude.{◌≡◌, ◌<◌, ◌^◌, ◌++◌, List, ℕ, All, length, map, reverse, IfOk, OnOk};
ghost use Rattle.proof_needs.specs.declared.numbers.Task.TheVariants.{Visit};
ghost use Rattle.proof_needs.specs.Numbers.{Tours, number_in, names_at, AreBelow, IsTaskBelow, IsVisited, IsTaken};

use indexmap::IndexSet;
use std::alloc::Global;
use tp_base::NoMemory;

// What comes next in the walk: a triple is walked to, or one that was entered gets its number.
#[derive(Clone, Copy, Debug)]
enum Task {
    Visit(usize),
    Number(usize),
}

/// What the roots lead to, each after those that it names. Linear in all that is named, on average; the levels above wait on a stack.
pub(crate) fn order_of(
    alloc: Global,
    names: &[Vec<usize>],
    roots: &[usize],
) -> Result<IndexSet<usize>, NoMemory>
    requires names { All (λ v. AreBelow (length names.now) v.items) names.now }
    requires roots { AreBelow (length names.now) roots.now }
    ensures { IfOk result (λ order. Tours (names_at names.now) roots.now order.keys) }
{
    let mut order = IndexSet::new(alloc);
    let mut entered = IndexSet::new(alloc);
    let mut tasks = Vec::new(alloc);
    push_visits(&mut tasks, roots)?;
    'tasks: while let Some(task) = tasks.pop() {
        take(task, names, &mut tasks, &mut entered, &mut order)?;
    }
    Ok(order)
}

fn take(
    task: Task,
    names: &[Vec<usize>],
    tasks: &mut Vec<Task>,
    entered: &mut IndexSet<usize>,
    order: &mut IndexSet<usize>,
) -> Result<(), NoMemory>
    requires { IsTaskBelow (length names.now) task }
    ensures { OnOk result (IsTaken (names_at names.now) task tasks.old.items tasks.new.items
        (record { entered = entered.old.keys; order = order.old.keys }) (record { entered = entered.new.keys; order = order.new.keys })) }
{
    match task {
        Task::Visit(triple) => {
            visit(triple, names, tasks, entered)?;
            Ok(())
        }
        Task::Number(triple) => {
            order.insert(triple)?;
            Ok(())
        }
    }
}

// A triple that wasn't entered waits for its number behind those that it names.
fn visit(
    triple: usize,
    names: &[Vec<usize>],
    tasks: &mut Vec<Task>,
    entered: &mut IndexSet<usize>,
) -> Result<(), NoMemory>
    requires { triple < length names.now }
    ensures { OnOk result ((order : List ℕ) → IsVisited (names_at names.now) triple tasks.old.items tasks.new.items
        (record { entered = entered.old.keys; order = order }) (record { entered = entered.new.keys; order = order })) }
{
    let fresh = entered.insert(triple)?;
    if !fresh {
        return Ok(());
    }
    tasks.push(Task::Number(triple))?;
    push_visits(tasks, &names[triple])?;
    Ok(())
}

// The first of them comes next.
fn push_visits(tasks: &mut Vec<Task>, triples: &[usize]) -> Result<(), NoMemory>
    ensures { OnOk result (tasks.new.items ≡ tasks.old.items ++ reverse (map Visit triples.now)) }
{
    let mut rest = triples;
    'rest: while let Some((triple, before)) = rest.split_last() {
        tasks.push(Task::Visit(*triple))?;
        rest = before;
    }
    Ok(())
}

/// The number of a triple: its place in the order. Constant, on average.
pub fn number_of(order: &IndexSet<usize>, triple: usize) -> u32
    requires few { length order.now.keys < 2 ^ 32 }
    ensures { result ≡ number_in order.now.keys triple }
{
    match order.get_index_of(&triple) {
        Some(number) => number as u32,
        None => 0,
    }
}
