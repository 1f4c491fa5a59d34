//! The distinct children that a cell's links look at, without those that can't exist.
ghost use Rattle.std.specs.Prelude.{◌≡◌, fold, [], IfOk, OnOk};
ghost use Rattle.std.specs.List.{flat_map, list_any};
ghost use Rattle.pushdown_sym.specs.Children.{standing_by, standing_each, standing_at, same_child, with_child};
ghost use Rattle.pushdown_sym.specs.Givers.{of_place, AreMakers};

use crate::cells::{Cells, is_false};
use crate::makers::Makers;
use class_diagrams::Ref;
use indexmap::IndexSet;
use simple_core::{Link, Spawn};
use std::alloc::Global;
use std::marker::Model;
use tp_base::{Atom, NoMemory};

/// The atom that makes a child, and the diagram of the child's cell.
#[derive(Clone, Copy, Debug, PartialEq, Eq, Hash)]
pub(crate) struct Child {
    pub(crate) needs: Atom,
    pub(crate) diagram: Ref,
}

// Where so many links at most give an atom, and so many spawn rules at most are asked, their children are a few.
const A_FEW: usize = 4;

/// Different children, in the order in which each came first: in a list where they are a few, and else in a set.
#[derive(Drop)]
pub(crate) struct Children {
    are_many: bool,
    list: Vec<Child>,
    set: IndexSet<Child>,
}

impl Model for Children {
    ghost use Rattle.std.specs.Prelude.{List, if◌then◌else◌};
    ghost use Rattle.pushdown_sym.specs.declared.gathering.Child.{Child};

    ghost Value = { List Child };

    ghost view = { λ c. if c.are_many then c.set.keys else c.list.items };
}

// Whether a child is among these.
fn is_among(children: &[Child], child: &Child) -> bool
    ensures { result ≡ list_any (same_child child.now) children.now }
{
    children.contains(child)
}

impl Children {
    fn new(alloc: Global, are_many: bool) -> Self
        ensures { result ≡ [] }
    {
        Children {
            are_many,
            list: Vec::new(alloc),
            set: IndexSet::new(alloc),
        }
    }

    // The children, and this one last unless it is there.
    fn add(&mut self, child: &Child) -> Result<(), NoMemory>
        ensures { OnOk result (self.new ≡ with_child self.old child.now) }
    {
        if self.are_many {
            self.set.insert(*child)?;
        } else if !is_among(&self.list, child) {
            self.list.push(*child)?;
        }
        Ok(())
    }

    // The child of a spawn rule by a link, if its diagram isn't false.
    fn add_standing(&mut self, now: &Cells, link: &Link, spawn: &Spawn) -> Result<(), NoMemory>
        ensures { OnOk result (self.new ≡ fold with_child self.old (standing_by now.now link.now spawn.now)) }
    {
        let diagram = now.get(spawn.kind, link.from);
        if !is_false(diagram) {
            let needs = spawn.needs;
            self.add(&Child { needs, diagram })?;
        }
        Ok(())
    }

    // The same of the spawn rule at a place.
    fn add_spawn_at(
        &mut self,
        now: &Cells,
        link: &Link,
        spawns: &[Spawn],
        place: usize,
    ) -> Result<(), NoMemory>
        ensures { OnOk result (self.new ≡ fold with_child self.old (of_place (standing_by now.now link.now) spawns.now place)) }
    {
        if place < spawns.len() {
            self.add_standing(now, link, &spawns[place])?;
        }
        Ok(())
    }

    // The same of the spawn rules at these places.
    fn add_spawns(
        &mut self,
        now: &Cells,
        link: &Link,
        spawns: &[Spawn],
        places: &[usize],
    ) -> Result<(), NoMemory>
        ensures { OnOk result (self.new ≡ fold with_child self.old (standing_at now.now spawns.now places.now link.now)) }
    {
        for i in 0..places.len() {
            let place = places[i];
            self.add_spawn_at(now, link, spawns, place)?;
        }
        Ok(())
    }

    // What a link looks at: the children of the kinds that may have its left side.
    fn add_link(
        &mut self,
        alloc: Global,
        now: &Cells,
        link: &Link,
        spawns: &[Spawn],
        makers: &Makers,
    ) -> Result<(), NoMemory>
        requires makers { AreMakers spawns.now makers.now }
        ensures { OnOk result (self.new ≡ fold with_child self.old (flat_map (standing_by now.now link.now) spawns.now)) }
    {
        let places = makers.of_each(alloc, now.kinds_with(link.from))?;
        self.add_spawns(now, link, spawns, &places)?;
        Ok(())
    }

    // What the link at a place looks at.
    fn add_link_at(
        &mut self,
        alloc: Global,
        now: &Cells,
        links: &[Link],
        place: usize,
        spawns: &[Spawn],
        makers: &Makers,
    ) -> Result<(), NoMemory>
        requires makers { AreMakers spawns.now makers.now }
        ensures { OnOk result (self.new ≡ fold with_child self.old (of_place (standing_each now.now spawns.now) links.now place)) }
    {
        if place < links.len() {
            self.add_link(alloc, now, &links[place], spawns, makers)?;
        }
        Ok(())
    }

    // What the link at a place looks at by some spawn rules alone, those at the given places.
    fn add_through_at(
        &mut self,
        now: &Cells,
        links: &[Link],
        place: usize,
        rules: (&[Spawn], &[usize]),
    ) -> Result<(), NoMemory>
        ensures { OnOk result (self.new ≡ fold with_child self.old (of_place (standing_at now.now rules.entry.0.now rules.entry.1.now) links.now place)) }
    {
        if place < links.len() {
            self.add_spawns(now, &links[place], rules.0, rules.1)?;
        }
        Ok(())
    }

    /// What the links at these places look at by the spawn rules at `doors`. A look at each of these rules for each link,
    /// and where both are a few, at the children that are there already.
    pub(crate) fn through(
        alloc: Global,
        now: &Cells,
        links: &[Link],
        places: &[usize],
        spawns: &[Spawn],
        doors: &[usize],
    ) -> Result<Self, NoMemory>
        ensures { IfOk result (λ c. c ≡ fold with_child [] (flat_map (of_place (standing_at now.now spawns.now doors.now) links.now) places.now)) }
    {
        let are_many = places.len() > A_FEW || doors.len() > A_FEW;
        let mut children = Children::new(alloc, are_many);
        for i in 0..places.len() {
            let place = places[i];
            children.add_through_at(now, links, place, (spawns, doors))?;
        }
        Ok(children)
    }

    /// What the links at these places look at. A look at each kind of child that may have the left side of one of them.
    pub(crate) fn of(
        alloc: Global,
        now: &Cells,
        links: &[Link],
        places: &[usize],
        spawns: &[Spawn],
        makers: &Makers,
    ) -> Result<Self, NoMemory>
        requires makers { AreMakers spawns.now makers.now }
        ensures { IfOk result (λ c. c ≡ fold with_child [] (flat_map (of_place (standing_each now.now spawns.now) links.now) places.now)) }
    {
        let mut children = Children::new(alloc, true);
        for i in 0..places.len() {
            let place = places[i];
            children.add_link_at(alloc, now, links, place, spawns, makers)?;
        }
        Ok(children)
    }

    pub(crate) fn items(&self) -> &[Child]
        ensures { result.now ≡ self.now }
    {
        if self.are_many {
            self.set.as_slice()
        } else {
            &self.list
        }
    }
}
