//! The state of the iteration between two rounds: fresh atoms, waiting nodes and the worklist.
ghost use Rattle.std.specs.Prelude.{◌≡◌, ◌≤◌, ◌<◌, ℕ, [], None, length, get_or, set, Contains, IfOk, OnOk, IfSome, IsTrue};
ghost use Rattle.row_index.specs.Rows.{row_of};
ghost use Rattle.closed_page.specs.Labelled.{AreKidsAll, IsHeard};
ghost use Rattle.class_adding.specs.declared.looking.Look.{Look};
ghost use Rattle.class_adding.specs.Work.{IsWorking, AreCallersOf, IsLessOf, IsWritten, IsAwaited, AreAwaited, AreUntil, AreNumbers, nodes_in, IsNext, IsStart};

use crate::due::next_due;
use crate::looking::Look;
use closed_page::{PageLabels, SharedSet};
use multimap::Multimap;
use row_index::Index;
use std::alloc::Global;
use tp_base::{ClassSet, NoMemory};

/// The state of each node between two rounds, by its number. It has the atoms that the last round brought, and whether no
/// round was taken in yet, so that all atoms are fresh. It has the children to which the last round brought some. It has the
/// round in which its added children give something new, and for each such round the nodes that wait for it, with the last
/// of these rounds. It has the worklist of the next round, in order, and the empty set, which all nodes share that got
/// nothing.
#[derive(Drop)]
pub(crate) struct Work {
    pub(crate) fresh: Vec<SharedSet>,
    pub(crate) is_first: bool,
    pub(crate) callers: Index,
    pub(crate) wakes: Vec<Option<u64>>,
    pub(crate) awaited: Multimap<u64, usize>,
    pub(crate) latest: u64,
    pub(crate) due: Vec<usize>,
    pub(crate) none: SharedSet,
}

// No round for any node.
fn no_wakes(alloc: Global, count: usize) -> Result<Vec<Option<u64>>, NoMemory>
    ensures count { IfOk result (λ v. length v.items ≡ count) }
    ensures none { IfOk result (λ v. (i : ℕ) → get_or v.items i None ≡ None) }
{
    let mut wakes = Vec::new(alloc);
    let mut i = 0;
    'nodes: while i < count {
        wakes.push(None)?;
        i += 1;
    }
    Ok(wakes)
}

/// Before the first round: all atoms are fresh, and every node is in the worklist. No callers are noted yet. Linear in the
/// nodes.
pub(crate) fn begin_work(alloc: Global, labels: &PageLabels) -> Result<Work, NoMemory>
    ensures { IfOk result (λ w. IsStart labels.now.labels labels.now.nodes w) }
{
    let fresh = labels.all_own(alloc)?;
    let count = labels.count();
    let wakes = no_wakes(alloc, count)?;
    let due = labels.all_numbers(alloc)?;
    Ok(Work {
        fresh,
        is_first: true,
        callers: Index::new(alloc),
        wakes,
        awaited: Multimap::new(alloc),
        latest: 0,
        due,
        none: SharedSet::new(ClassSet::new(alloc))?,
    })
}

/// The children of a node that have something new: all of them before the first round, and then those that were noted.
pub(crate) fn callers_of<'a>(labels: &'a PageLabels, work: &'a Work, number: usize) -> &'a [usize]
    requires number { number < length labels.now.nodes }
    requires working { IsWorking labels.now.nodes work.now }
    ensures { AreCallersOf labels.now.nodes work.now.fresh.items number result.now }
{
    if work.is_first {
        labels.kids(number)
    } else {
        work.callers.of(number)
    }
}

// Takes the callers of the nodes of these looks away.
fn clear_all(callers: &mut Index, looks: &[Look])
    ensures { IsLessOf callers.old callers.new }
{
    let mut rest = looks;
    'looks: while let Some((look, others)) = rest.split_first() {
        callers.clear(look.number);
        rest = others;
    }
}

// Notes a node at its parent, if something is new there.
fn call_if(
    alloc: Global,
    labels: &PageLabels,
    look: &Look,
    callers: &mut Index,
) -> Result<(), NoMemory>
    requires { look.now.number < length labels.now.nodes }
    ensures kept { OnOk result ((i j : ℕ) → Contains (row_of callers.old i) j → Contains (row_of callers.new i) j) }
    ensures only { OnOk result (AreKidsAll labels.now.nodes callers.old → AreKidsAll labels.now.nodes callers.new) }
    ensures heard { OnOk result (IsTrue look.now.grew → IsHeard labels.now.nodes callers.new look.now.number) }
{
    if look.grew {
        labels.call(alloc, look.number, callers)?;
    }
    Ok(())
}

// Notes each node at which something is new at its parent.
fn call_all(
    alloc: Global,
    labels: &PageLabels,
    looks: &[Look],
    callers: &mut Index,
) -> Result<(), NoMemory>
    requires numbers { (l : Look) → Contains looks.now l → l.number < length labels.now.nodes }
    requires only { AreKidsAll labels.now.nodes callers.old }
    ensures only { OnOk result (AreKidsAll labels.now.nodes callers.new) }
    ensures heard { OnOk result ((l : Look) → Contains looks.now l → IsTrue l.grew → IsHeard labels.now.nodes callers.new l.number) }
{
    let mut rest = looks;
    'looks: while let Some((look, others)) = rest.split_first() {
        call_if(alloc, labels, look, callers)?;
        rest = others;
    }
    Ok(())
}

fn write_news(fresh: &mut Vec<SharedSet>, look: &Look) -> Result<(), NoMemory>
    requires { look.now.number < length fresh.old.items }
    ensures { OnOk result (fresh.new.items ≡ set fresh.old.items look.now.number look.now.news) }
{
    let news = look.news.share()?;
    fresh[look.number] = news;
    Ok(())
}

// Writes what is new at each of these nodes.
fn write_all_news(fresh: &mut Vec<SharedSet>, looks: &[Look]) -> Result<(), NoMemory>
    requires { (l : Look) → Contains looks.now l → l.number < length fresh.old.items }
    ensures { OnOk result (IsWritten (λ l. l.news) [] looks.now fresh.old.items fresh.new.items) }
{
    let mut rest = looks;
    'looks: while let Some((look, others)) = rest.split_first() {
        write_news(fresh, look)?;
        rest = others;
    }
    Ok(())
}

fn write_wake(wakes: &mut Vec<Option<u64>>, look: &Look)
    requires { look.now.number < length wakes.old.items }
    ensures { wakes.new.items ≡ set wakes.old.items look.now.number look.now.wake }
{
    wakes[look.number] = look.wake;
}

// Writes when each of these nodes wakes.
fn write_all_wakes(wakes: &mut Vec<Option<u64>>, looks: &[Look])
    requires { (l : Look) → Contains looks.now l → l.number < length wakes.old.items }
    ensures { IsWritten (λ l. l.wake) None looks.now wakes.old.items wakes.new.items }
{
    let mut rest = looks;
    'looks: while let Some((look, others)) = rest.split_first() {
        write_wake(wakes, look);
        rest = others;
    }
}

fn wait(awaited: &mut Multimap<u64, usize>, look: &Look) -> Result<(), NoMemory>
    ensures { OnOk result (IsAwaited awaited.old awaited.new look.now.number look.now.wake) }
{
    match look.wake {
        Some(round) => {
            awaited.push(round, look.number)?;
            Ok(())
        }
        None => Ok(()),
    }
}

// Notes each of these nodes at the round in which it wakes.
fn wait_all(awaited: &mut Multimap<u64, usize>, looks: &[Look]) -> Result<(), NoMemory>
    ensures { OnOk result (AreAwaited awaited.old awaited.new looks.now) }
{
    let mut rest = looks;
    'looks: while let Some((look, others)) = rest.split_first() {
        wait(awaited, look)?;
        rest = others;
    }
    Ok(())
}

fn later_of(latest: u64, look: &Look) -> u64
    ensures least { latest ≤ result }
    ensures until { IfSome look.now.wake (λ r. r ≤ result) }
    ensures bound { (n : ℕ) → latest < n → IfSome look.now.wake (λ r. r < n) → result < n }
{
    match look.wake {
        Some(round) => round.max(latest),
        None => latest,
    }
}

/// The last round in which some node wakes, among those noted before and those of these looks.
pub(crate) fn latest_of(latest: u64, looks: &[Look]) -> u64
    ensures least { latest ≤ result }
    ensures until { AreUntil looks.now result }
    ensures bound { (n : ℕ) → latest < n → ((l : Look) → Contains looks.now l → IfSome l.wake (λ r. r < n)) → result < n }
{
    let mut last = latest;
    let mut rest = looks;
    'looks: while let Some((look, others)) = rest.split_first() {
        let later = later_of(last, look);
        last = later;
        rest = others;
    }
    last
}

/// Takes in what these looks found, which is then round k. It costs a few steps for each look, and for each child of a
/// node that links from its parent lead to.
pub(crate) fn take_looks(
    alloc: Global,
    labels: &PageLabels,
    work: &mut Work,
    looks: &[Look],
    latest: u64,
    k: u64,
) -> Result<(), NoMemory>
    requires numbers { (l : Look) → Contains looks.now l → l.number < length labels.now.nodes }
    requires long { length work.old.fresh.items ≡ length labels.now.nodes }
    requires times { length work.old.wakes.items ≡ length labels.now.nodes }
    requires only { AreKidsAll labels.now.nodes work.old.callers }
    requires awaited { (r : ℕ) → AreNumbers labels.now.nodes (nodes_in work.old.awaited r) }
    ensures { OnOk result (IsNext labels.now.nodes work.old looks.now latest k work.new) }
{
    write_all_news(&mut work.fresh, looks)?;
    write_all_wakes(&mut work.wakes, looks);
    wait_all(&mut work.awaited, looks)?;
    clear_all(&mut work.callers, looks);
    call_all(alloc, labels, looks, &mut work.callers)?;
    let due = next_due(alloc, labels, looks, work.awaited.of(k))?;
    work.due = due;
    work.is_first = false;
    work.latest = latest;
    Ok(())
}
