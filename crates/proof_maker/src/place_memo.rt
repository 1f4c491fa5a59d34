//! A memo of what summaries tell of added nodes.
ghost use Rattle.std.specs.Prelude.{◌≡◌, ◌<◌, List, length, Some, slice_get, IfOk};
ghost use Rattle.simple_core.specs.declared.system.System.{System};
ghost use Rattle.pair_table.specs.declared.table.Row.{Row};
ghost use Rattle.pair_table.specs.Rows.{IsRowOf};
ghost use Rattle.proof_maker.specs.declared.told.Told.{Told};
ghost use Rattle.proof_maker.specs.PlaceMemos.{IsPlaceMemo};

use crate::told::{Told, told_of};
use pair_table::PairTable;
use simple_core::{Summaries, System};
use std::alloc::Global;
use std::marker::Model;
use tp_base::{ClassSet, NoMemory};

/// A memo of what summaries told of added nodes, so that each is asked for once. It has a row for each kind below a visible
/// label. A contract sees the rows.
#[derive(Drop)]
pub struct PlaceMemo {
    table: PairTable<Told>,
}

impl Model for PlaceMemo {
    ghost use Rattle.std.specs.Prelude.{List};
    ghost use Rattle.pair_table.specs.declared.table.Row.{Row};
    ghost use Rattle.proof_maker.specs.declared.told.Told.{Told};

    ghost Value = { List (Row Told) };

    ghost view = { λ m. m.table };
}

impl PlaceMemo {
    /// An empty memo.
    pub fn new(alloc: Global) -> PlaceMemo
        ensures { (s : System) → IsPlaceMemo s result }
    {
        PlaceMemo {
            table: PairTable::new(alloc),
        }
    }

    /// The row of an added node, which is made where it isn't there. Linear in the parent's atoms, on average, where it is; else
    /// the summaries tell it.
    pub(crate) fn reach<S: Summaries>(
        &mut self,
        alloc: Global,
        system: &System,
        sums: &S,
        kind: u32,
        parent: &ClassSet,
    ) -> Result<usize, NoMemory>
        requires made { S.system sums.now ≡ system.now }
        requires known { S.known sums.now (kind, parent.now) }
        requires rows { IsPlaceMemo (S.system sums.now) self.old }
        ensures rows { IsPlaceMemo (S.system sums.now) self.new }
        ensures row { IfOk result (IsRowOf self.new kind parent.now) }
    {
        match self.table.find(kind, parent) {
            Some(row) => Ok(row),
            None => {
                let told = told_of(alloc, system, sums, kind, parent)?;
                let parent = parent.copy()?;
                self.table.push(kind, parent, told)
            }
        }
    }

    /// What is told of the added node of a row.
    pub(crate) fn told(&self, row: usize) -> &Told
        requires { row < length self.now }
        ensures { (r : Row Told) → slice_get self.now row ≡ Some r → result.now ≡ r.value }
    {
        self.table.value(row)
    }
}
