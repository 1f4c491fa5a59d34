//! Tables: for each number a list of numbers.
ghost use Rattle.std.specs.Prelude.{◌≡◌, [], Contains, IfOk, OnOk};
ghost use Rattle.saturation.specs.Tables.{noted_in, IsNoted, OfNeeds, OfLinks, OfSpawns};

use row_index::Rows;
use simple_core::{Link, Local, Spawn};
use std::alloc::Global;
use std::marker::Model;
use tp_base::{ClassSet, NoMemory};

/// For each number a list of noted numbers, in the order in which they came. There is a row for each number up to the largest
/// key.
#[derive(Drop)]
pub(crate) struct Table {
    rows: Rows<u32>,
}

impl Model for Table {
    ghost use Rattle.std.specs.Prelude.{List, ℕ};

    ghost Value = { List (List ℕ) };

    ghost view = { λ t. t.rows };
}

impl Table {
    fn new(alloc: Global) -> Self
        ensures { result ≡ [] }
    {
        Table {
            rows: Rows::new(alloc),
        }
    }

    /// The table of local rules: the atoms that rules give, by each atom that they need.
    pub(crate) fn of_needs(alloc: Global, rules: &[Local]) -> Result<Self, NoMemory>
        ensures { IfOk result (λ t. OfNeeds rules.now (noted_in t)) }
    {
        let mut table = Table::new(alloc);
        for i in 0..rules.len() {
            let rule = &rules[i];
            table.note_each(alloc, &rule.needs, rule.gives.0)?;
        }
        Ok(table)
    }

    /// The table of links: the atoms that they give, by the atom that they look at.
    pub(crate) fn of_links(alloc: Global, links: &[Link]) -> Result<Self, NoMemory>
        ensures { IfOk result (λ t. OfLinks links.now (noted_in t)) }
    {
        let mut table = Table::new(alloc);
        for i in 0..links.len() {
            let link = &links[i];
            table.note(alloc, link.from.0, link.to.0)?;
        }
        Ok(table)
    }

    /// The table of spawns: the atoms that make a child, by its kind.
    pub(crate) fn of_spawns(alloc: Global, spawns: &[Spawn]) -> Result<Self, NoMemory>
        ensures { IfOk result (λ t. OfSpawns spawns.now (noted_in t)) }
    {
        let mut table = Table::new(alloc);
        for i in 0..spawns.len() {
            let spawn = &spawns[i];
            table.note(alloc, spawn.kind, spawn.needs.0)?;
        }
        Ok(table)
    }

    pub(crate) fn of(&self, key: u32) -> &[u32]
        ensures { result.now ≡ noted_in self.now key }
    {
        self.rows.of(key as usize)
    }

    // Notes a number for each of these keys.
    fn note_each(&mut self, alloc: Global, keys: &ClassSet, number: u32) -> Result<(), NoMemory>
        ensures { OnOk result (IsNoted (Contains keys.now) number (noted_in self.old) (noted_in self.new)) }
    {
        for i in 0..keys.len() {
            let key = keys.at(i);
            self.note(alloc, key.0, number)?;
        }
        Ok(())
    }

    fn note(&mut self, alloc: Global, key: u32, number: u32) -> Result<(), NoMemory>
        ensures { OnOk result (IsNoted (λ b. key ≡ b) number (noted_in self.old) (noted_in self.new)) }
    {
        self.rows.note(alloc, key as usize, number)?;
        Ok(())
    }
}
