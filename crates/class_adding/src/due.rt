//! The worklist of the next round, by node numbers.
ghost use Rattle.std.specs.Prelude.{◌≡◌, ◌↔◌, ◌<◌, ◌⊎◌, ℕ, length, Contains, IfOk, OnOk, IsTrue};
ghost use Rattle.closed_page.specs.Labelled.{IsParentIn};
ghost use Rattle.class_adding.specs.declared.looking.Look.{Look};
ghost use Rattle.class_adding.specs.Filling.{wake_at, wakes_in};
ghost use Rattle.class_adding.specs.Work.{AreNumbers, AreKidsIn, IsNear, AreNear};

use crate::looking::Look;
use closed_page::PageLabels;
use std::alloc::Global;
use tp_base::NoMemory;

/// When the i-th node wakes.
pub(crate) fn wake_in(wakes: &[Option<u64>], i: usize) -> Option<u64>
    ensures { result ≡ wake_at wakes.now i }
{
    match wakes.get(i) {
        Some(wake) => *wake,
        None => None,
    }
}

/// Whether this is the round.
pub(crate) fn is_round(wake: Option<u64>, k: u64) -> bool
    ensures { result ≡ wakes_in k wake }
{
    match wake {
        Some(round) => round == k,
        None => false,
    }
}

// Adds the parent of a node, if a link looks from there at what is new.
fn add_parent(labels: &PageLabels, look: &Look, due: &mut Vec<usize>) -> Result<(), NoMemory>
    requires number { look.now.number < length labels.now.nodes }
    ensures kept { OnOk result ((i : ℕ) → Contains due.old.items i → Contains due.new.items i) }
    ensures within { OnOk result ((i : ℕ) → Contains due.new.items i → Contains due.old.items i ⊎ (i < length labels.now.nodes)) }
    ensures there { OnOk result (IsTrue look.now.seen_above → IsParentIn labels.now.nodes look.now.number due.new.items) }
{
    if look.seen_above {
        labels.add_parent(look.number, due)?;
    }
    Ok(())
}

// The children of a node, if a link looks from there at what is new.
fn kids_told<'a>(labels: &'a PageLabels, look: &Look) -> &'a [usize]
    requires number { look.now.number < length labels.now.nodes }
    ensures within { AreNumbers labels.now.nodes result.now }
    ensures there { IsTrue look.now.seen_below → AreKidsIn labels.now.nodes look.now.number result.now }
{
    if look.seen_below {
        labels.kids(look.number)
    } else {
        &[]
    }
}

// Adds a node at which something is new, and those next to it that links lead to.
fn add_near(labels: &PageLabels, look: &Look, due: &mut Vec<usize>) -> Result<(), NoMemory>
    requires number { look.now.number < length labels.now.nodes }
    ensures kept { OnOk result ((i : ℕ) → Contains due.old.items i → Contains due.new.items i) }
    ensures within { OnOk result ((i : ℕ) → Contains due.new.items i → Contains due.old.items i ⊎ (i < length labels.now.nodes)) }
    ensures near { OnOk result (IsTrue look.now.grew → IsNear labels.now.nodes look.now due.new.items) }
{
    if look.grew {
        let number = look.number;
        due.push(number)?;
        add_parent(labels, look, due)?;
        due.extend_from_slice(kids_told(labels, look))?;
    }
    Ok(())
}

// The nodes at which something is new, those next to them that links lead to, and those that wake; one may stand there more
// than once.
fn gathered(
    alloc: Global,
    labels: &PageLabels,
    looks: &[Look],
    woken: &[usize],
) -> Result<Vec<usize>, NoMemory>
    requires numbers { (l : Look) → Contains looks.now l → l.number < length labels.now.nodes }
    requires woken { AreNumbers labels.now.nodes woken.now }
    ensures within { IfOk result (λ v. AreNumbers labels.now.nodes v.items) }
    ensures near { IfOk result (λ v. AreNear labels.now.nodes looks.now v.items) }
    ensures woken { IfOk result (λ v. (i : ℕ) → Contains woken.now i → Contains v.items i) }
{
    let mut due = Vec::new(alloc);
    due.extend_from_slice(woken)?;
    let mut rest = looks;
    'looks: while let Some((look, others)) = rest.split_first() {
        add_near(labels, look, &mut due)?;
        rest = others;
    }
    Ok(due)
}

// The same numbers in order, each once.
fn in_order(numbers: Vec<usize>) -> Result<Vec<usize>, NoMemory>
    ensures { IfOk result (λ v. (i : ℕ) → Contains v.items i ↔ Contains numbers.items i) }
{
    let mut due = numbers;
    due.sort()?;
    due.dedup();
    Ok(due)
}

/// The worklist of the next round, in document order: the nodes with fresh atoms, those next to them from which a link looks
/// at these, and those that wake. What is there too much costs time alone. It costs these nodes, but for a sort.
pub(crate) fn next_due(
    alloc: Global,
    labels: &PageLabels,
    looks: &[Look],
    woken: &[usize],
) -> Result<Vec<usize>, NoMemory>
    requires numbers { (l : Look) → Contains looks.now l → l.number < length labels.now.nodes }
    requires woken { AreNumbers labels.now.nodes woken.now }
    ensures within { IfOk result (λ v. AreNumbers labels.now.nodes v.items) }
    ensures near { IfOk result (λ v. AreNear labels.now.nodes looks.now v.items) }
    ensures woken { IfOk result (λ v. (i : ℕ) → Contains woken.now i → Contains v.items i) }
{
    let due = gathered(alloc, labels, looks, woken)?;
    let ordered = in_order(due)?;
    Ok(ordered)
}
