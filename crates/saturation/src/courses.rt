//! Courses: for each kind the histories of the visible atoms that may come to it.
ghost use Rattle.std.specs.Prelude.{◌≡◌, ◌<◌, ◌-◌, ◌++◌, ◌||◌, nat_lt, ℕ, false, List, [], ◌∷◌, length, map, slice_get, Some, All, Contains, IfOk, OnOk, IfSome, IsNone};
ghost use Rattle.std.specs.List.{flat_map};
ghost use Rattle.std.specs.List.Sorted.{IsStrictlyIncreasing};
ghost use Rattle.saturation.specs.declared.courses.Course.{Course};
ghost use Rattle.simple_core.specs.Systems.{kind_label, IsSound};
ghost use Rattle.saturation.specs.Histories.{Change, first_in};
ghost use Rattle.saturation.specs.HistoryMap.{history_in};
ghost use Rattle.saturation.specs.Courses.{AreCourses, AreRows, CanBeAsked, first_by, is_shut, IsGated, HasGate};
ghost use Rattle.class_diagrams.specs.Arena.{tree_at, IsIn};
ghost use Rattle.class_diagrams.specs.Gates.{EndsInFalse};

use crate::histories::{Histories, first_round_under};
use class_diagrams::{AtomSet, Diagrams, Marks, Ref, are_worth_marks};
use simple_core::{First, System};
use std::alloc::Global;
use tp_base::{Atom, ClassSet, Items, NoMemory};

/// The course of a visible atom for a kind. `starts` tells whether the kind has the atom from the beginning, and `changes` is
/// the history of its cell. `gate` holds two atoms, if known, of which the parent needs one for the atom to come.
#[derive(Drop)]
pub(crate) struct Course {
    pub(crate) atom: Atom,
    pub(crate) starts: bool,
    pub(crate) gate: Option<(Atom, Atom)>,
    pub(crate) changes: Items<(u64, Ref)>,
}

impl Course {
    // Whether a parent with these visible atoms has neither atom of the gate.
    fn is_shut<L: AtomSet>(&self, parent: &L) -> bool
        ensures { result ≡ is_shut self.now.gate (L.atoms parent.now) }
    {
        match self.gate {
            Some((first, second)) => !parent.has_atom(first) && !parent.has_atom(second),
            None => false,
        }
    }

    /// The first round in which the atom comes below a parent with these visible atoms. One evaluation of a diagram for each
    /// step of a binary search over the changes.
    pub(crate) fn first_under<L: AtomSet>(&self, d: &Diagrams, parent: &L) -> Option<u64>
        requires { CanBeAsked d.now.branches (L.atoms parent.now) self.now }
        ensures { result ≡ first_in self.now.starts d.now.branches self.now.changes (L.atoms parent.now) }
    {
        if self.is_shut(parent) {
            return None;
        }
        if self.starts {
            return Some(0);
        }
        first_round_under(self.changes.items(), d, parent)
    }
}

// Whether an atom may come: it is there from the beginning, or its cell changes.
fn may_come(starts: bool, history: &[(u64, Ref)]) -> bool
    ensures { result ≡ (starts || nat_lt 0 (length history.now)) }
{
    starts || history.len() > 0
}

// The gate of the last change's diagram, unless the atom is there from the beginning.
fn gate_of(d: &Diagrams, starts: bool, history: &[(u64, Ref)]) -> Option<(Atom, Atom)>
    requires { All (λ c. IsIn d.now.branches c.1) history.now }
    ensures gate { IsGated d.now.branches starts history.now result }
    ensures none { IsNone result → starts ≡ false → (c : Change) → Some c ≡ slice_get history.now (length history.now - 1) → ¬ EndsInFalse (tree_at d.now.branches c.1) }
{
    if starts {
        return None;
    }
    match history.last() {
        Some(last) => d.gate(last.1),
        None => None,
    }
}

// Adds the course of an atom for a kind with this label and this history, unless the atom never comes.
fn add_course(
    alloc: Global,
    d: &Diagrams,
    label: &ClassSet,
    atom: Atom,
    history: &[(u64, Ref)],
    courses: &mut Vec<Course>,
) -> Result<(), NoMemory>
    requires { All (λ c. IsIn d.now.branches c.1) history.now }
    ensures courses { (changes : ℕ → List Change) (atoms : List ℕ) → history.now ≡ changes atom → AreCourses label.now changes atoms courses.old.items
        → OnOk result (AreCourses label.now changes (atoms ++ atom ∷ []) courses.new.items) }
    ensures gates { All (HasGate d.now.branches) courses.old.items → OnOk result (All (HasGate d.now.branches) courses.new.items) }
{
    let starts = label.has(atom);
    if may_come(starts, history) {
        let gate = gate_of(d, starts, history);
        let changes = Items::new(Vec::from_slice(alloc, history)?);
        courses.push(Course {
            atom,
            starts,
            gate,
            changes,
        })?;
    }
    Ok(())
}

// The courses of the visible atoms for a kind with this label. The search for each atom's changes begins where the last one
// ended.
fn row_with(
    alloc: Global,
    d: &Diagrams,
    histories: &Histories,
    kind: u32,
    label: &ClassSet,
    visible: &ClassSet,
) -> Result<Items<Course>, NoMemory>
    requires { (a : ℕ) → All (λ c. IsIn d.now.branches c.1) (history_in histories.now kind a) }
    ensures courses { IfOk result (AreCourses label.now (history_in histories.now kind) visible.now) }
    ensures gates { IfOk result (All (HasGate d.now.branches)) }
{
    let mut courses = Vec::new(alloc);
    let mut near = 0;
    for i in 0..visible.len() {
        let atom = visible.at(i);
        let (history, behind) = histories.near(kind, atom, near);
        add_course(alloc, d, label, atom, history, &mut courses)?;
        near = behind;
    }
    Ok(Items::new(courses))
}

fn row_of(
    alloc: Global,
    d: &Diagrams,
    system: &System,
    histories: &Histories,
    kind: u32,
) -> Result<Items<Course>, NoMemory>
    requires kind { kind < length system.now.kinds }
    requires inside { (a : ℕ) → All (λ c. IsIn d.now.branches c.1) (history_in histories.now kind a) }
    ensures courses { IfOk result (AreCourses (kind_label system.now kind) (history_in histories.now kind) system.now.visible) }
    ensures gates { IfOk result (All (HasGate d.now.branches)) }
{
    let kinds = system.kinds.items();
    let label = &kinds[kind as usize].label;
    row_with(alloc, d, histories, kind, label, &system.visible)
}

/// The courses of each kind, in the order of the kinds. One lookup of a history for each kind and visible atom. A lookup is
/// constant where each changed cell is of a visible atom and changes once.
pub(crate) fn rows_of(
    alloc: Global,
    d: &Diagrams,
    system: &System,
    histories: &Histories,
) -> Result<Items<Items<Course>>, NoMemory>
    requires sound { IsSound system.now }
    requires inside { (j a : ℕ) → j < length system.now.kinds → All (λ c. IsIn d.now.branches c.1) (history_in histories.now j a) }
    ensures gates { IfOk result (All (All (HasGate d.now.branches))) }
    ensures rows { IfOk result (AreRows system.now (history_in histories.now)) }
{
    let mut rows = Vec::new(alloc);
    for i in 0..system.kinds.items().len() {
        let row = row_of(alloc, d, system, histories, i as u32)?;
        rows.push(row)?;
    }
    Ok(Items::new(rows))
}

/// The row of a kind. Constant.
pub(crate) fn row_at(rows: &[Items<Course>], kind: u32) -> &[Course]
    requires { kind < length rows.now }
    ensures { slice_get rows.now kind ≡ Some result.now }
{
    rows[kind as usize].items()
}

/// The course of an atom, where it has one. Logarithmic in their number.
pub(crate) fn course_of(courses: &[Course], atom: Atom) -> Option<&Course>
    requires { IsStrictlyIncreasing (map (λ c. c.atom) courses.now) }
    ensures some { IfSome result (λ c. Contains courses.now c.now × (c.now.atom ≡ atom)) }
    ensures none { IsNone result → (c : Course) → Contains courses.now c → ¬ (c.atom ≡ atom) }
{
    match courses.binary_search_by_key(&atom, |course| course.atom) {
        Ok(place) => Some(&courses[place]),
        Err(_) => None,
    }
}

fn add_first<L: AtomSet>(
    firsts: &mut Vec<First>,
    course: &Course,
    d: &Diagrams,
    parent: &L,
) -> Result<(), NoMemory>
    requires { CanBeAsked d.now.branches (L.atoms parent.now) course.now }
    ensures { OnOk result (firsts.new.items ≡ firsts.old.items ++ first_by d.now.branches (L.atoms parent.now) course.now) }
{
    match course.first_under(d, parent) {
        None => {}
        Some(round) => {
            let atom = course.atom;
            firsts.push(First { atom, round })?;
        }
    }
    Ok(())
}

fn firsts_under<L: AtomSet>(
    alloc: Global,
    courses: &[Course],
    d: &Diagrams,
    parent: &L,
) -> Result<Vec<First>, NoMemory>
    requires { All (CanBeAsked d.now.branches (L.atoms parent.now)) courses.now }
    ensures { IfOk result (λ firsts. firsts.items ≡ flat_map (first_by d.now.branches (L.atoms parent.now)) courses.now) }
{
    let mut firsts = Vec::new(alloc);
    for i in 0..courses.len() {
        let course = &courses[i];
        add_first(&mut firsts, course, d, parent)?;
    }
    firsts.shrink_to_fit();
    Ok(firsts)
}

/// The atoms that come by these courses below a parent with these visible atoms, each with its first round. A course costs an
/// evaluation only if it has changes and its gate is open, and one more each time its changes double. The list takes no more
/// memory than it needs.
pub(crate) fn firsts_by(
    alloc: Global,
    courses: &[Course],
    d: &Diagrams,
    parent: &ClassSet,
) -> Result<Vec<First>, NoMemory>
    requires { All (CanBeAsked d.now.branches parent.now) courses.now }
    ensures { IfOk result (λ firsts. firsts.items ≡ flat_map (first_by d.now.branches parent.now) courses.now) }
{
    if are_worth_marks(courses.len(), parent) {
        let marks = Marks::of(alloc, parent)?;
        return firsts_under(alloc, courses, d, &marks);
    }
    firsts_under(alloc, courses, d, parent)
}
