//! The cells of one atom, by kind.
ghost use Rattle.std.specs.Prelude.{◌≡◌, ◌≢◌, ℕ, true, false, ◌==◌, length, if◌then◌else◌, [], Contains, IfOk, IfErr, OnOk, OnErr};
ghost use Rattle.std.specs.List.Sorted.{IsStrictlyIncreasing};
ghost use Rattle.class_diagrams.specs.References.{leaf_reference};
ghost use Rattle.pushdown_sym.specs.CellRows.{kinds_of, diagram_in, IsAt, IsGapOf};

use class_diagrams::{Diagrams, Ref};
use std::alloc::Global;
use std::marker::Model;
use tp_base::NoMemory;

/// The diagrams of the kinds that have one, by kinds in increasing order, and the kinds once more, in the order in which
/// they came. A contract sees the kinds with their diagrams; where there is none, the cell is false.
#[derive(Drop)]
pub(crate) struct Row {
    cells: Vec<(u32, Ref)>,
    kinds: Vec<u32>,
}

impl Model for Row {
    ghost use Rattle.std.specs.Prelude.{List, ℕ};
    ghost use Rattle.class_diagrams.specs.References.{Reference};
    ghost use Rattle.pushdown_sym.specs.CellRows.{AreNoted};

    ghost Value = { List (ℕ × Reference) };

    ghost view = { λ r. r.cells.items };

    ghost invariant = { λ r. AreNoted r.cells.items r.kinds.items };
}

// Whether a kind stands at a place. A no costs time alone.
fn is_at(cells: &[(u32, Ref)], place: usize, kind: u32) -> bool
    ensures { result ≡ true → IsAt cells.now kind place }
{
    match cells.get(place) {
        Some(cell) => cell.0 == kind,
        None => false,
    }
}

// Whether a kind is greater than all. A no costs time alone.
fn is_behind(cells: &[(u32, Ref)], kind: u32) -> bool
    requires { IsStrictlyIncreasing (kinds_of cells.now) }
    ensures { result ≡ true → IsGapOf cells.now kind (length cells.now) }
{
    match cells.last() {
        Some(last) => last.0 < kind,
        None => true,
    }
}

// Where a kind stands if the kinds are spread evenly. A place where it doesn't stand costs time alone.
fn even_place(cells: &[(u32, Ref)], kind: u32) -> usize {
    let Some(first) = cells.first() else {
        return 0;
    };
    let Some(last) = cells.last() else {
        return 0;
    };
    let behind_first = kind.wrapping_sub(first.0) as usize;
    behind_first
        .wrapping_mul(cells.len().wrapping_sub(1))
        .checked_div(last.0.wrapping_sub(first.0) as usize)
        .unwrap_or(0)
}

// The place of a kind, or where it would stand. Constant where the kind is greater than all or the kinds are spread evenly,
// and else logarithmic in their number.
fn place_of(cells: &[(u32, Ref)], kind: u32) -> Result<usize, usize>
    requires { IsStrictlyIncreasing (kinds_of cells.now) }
    ensures found { IfOk result (IsAt cells.now kind) }
    ensures gap { IfErr result (IsGapOf cells.now kind) }
{
    if is_behind(cells, kind) {
        return Err(cells.len());
    }
    let even = even_place(cells, kind);
    if is_at(cells, even, kind) {
        return Ok(even);
    }
    cells.binary_search_by_key(&kind, |cell| cell.0)
}

impl Row {
    pub(crate) fn new(alloc: Global) -> Self
        ensures { result ≡ [] }
    {
        Row {
            cells: Vec::new(alloc),
            kinds: Vec::new(alloc),
        }
    }

    /// The diagram of a kind. Constant where the kinds are spread evenly, and else logarithmic in their number.
    pub(crate) fn get(&self, kind: u32) -> Ref
        ensures { result ≡ diagram_in self.now kind }
    {
        match place_of(&self.cells, kind) {
            Ok(place) => self.cells[place].1,
            Err(_) => Diagrams::leaf(false),
        }
    }

    /// The kinds that were given a diagram, in the order in which they came. Constant.
    pub(crate) fn kinds(&self) -> &[u32]
        ensures { (j : ℕ) → diagram_in self.now j ≢ leaf_reference false → Contains result.now j }
    {
        &self.kinds
    }

    /// Changes the diagram of one kind, and gives the one before. Linear in the number of greater kinds where it is new.
    pub(crate) fn replace(&mut self, kind: u32, to: Ref) -> Result<Ref, NoMemory>
        ensures before { IfOk result (λ f. f ≡ diagram_in self.old kind) }
        ensures ok { OnOk result ((j : ℕ) → diagram_in self.new j ≡ (if kind == j then to else diagram_in self.old j)) }
        ensures err { OnErr result (self.new ≡ self.old) }
    {
        match place_of(&self.cells, kind) {
            Ok(place) => {
                let held = self.cells[place];
                self.cells[place] = (kind, to);
                Ok(held.1)
            }
            Err(place) => {
                self.kinds.push(kind)?;
                self.cells.insert(place, (kind, to))?;
                Ok(Diagrams::leaf(false))
            }
        }
    }
}
