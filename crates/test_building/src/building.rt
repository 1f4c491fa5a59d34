//! Systems from their rules and kinds.
ghost use Rattle.std.specs.Prelude.{◌≡◌, [], map, IfOk};
ghost use Rattle.tp_base.specs.Classes.{union_of};

use crate::trees::set_of;
use simple_core::{Kind, Kinds, Link, Links, Local, Locals, Spawn, Spawns, System};
use std::alloc::Global;
use tp_base::{Atom, ClassSet, NoMemory};

/// A rule at one node: what it needs, what it gives, and its statement.
pub type LocalRow = (&'static [u32], u32, Option<u32>);

/// A kind: its label, the statement that makes it, the kind above, its number among how many siblings, and whether they are put beside a node.
pub struct KindRow {
    pub label: &'static [u32],
    pub stmt: u32,
    pub above: Option<u32>,
    pub number: u32,
    pub siblings: u32,
    pub beside: bool,
}

/// The one tree that the first statement puts inside a node; its label is to be said.
pub const KIND: KindRow = KindRow {
    label: &[],
    stmt: 0,
    above: None,
    number: 0,
    siblings: 1,
    beside: false,
};

/// The rules of a system, and its kinds. A link is from an atom to an atom, a spawn from an atom to a kind.
pub struct Rules {
    pub local: &'static [LocalRow],
    pub up: &'static [(u32, u32)],
    pub down: &'static [(u32, u32)],
    pub child: &'static [(u32, u32)],
    pub kinds: &'static [KindRow],
}

fn locals(alloc: Global, rows: &[LocalRow]) -> Result<Locals, NoMemory> {
    let mut items = Vec::new(alloc);
    for (needs, gives, stmt) in rows {
        items.push(Local {
            needs: set_of(alloc, needs)?,
            gives: Atom(*gives),
            stmt: *stmt,
        })?;
    }
    Locals::new(items)
}

/// Links, each from an atom to an atom.
pub fn links(alloc: Global, rows: &[(u32, u32)]) -> Result<Links, NoMemory> {
    let mut items = Vec::new(alloc);
    for (from, to) in rows {
        items.push(Link {
            from: Atom(*from),
            to: Atom(*to),
        })?;
    }
    Ok(Links::new(items))
}

fn spawns(alloc: Global, rows: &[(u32, u32)]) -> Result<Spawns, NoMemory> {
    let mut items = Vec::new(alloc);
    for (needs, kind) in rows {
        items.push(Spawn {
            needs: Atom(*needs),
            kind: *kind,
        })?;
    }
    Ok(Spawns::new(items))
}

fn kinds(alloc: Global, rows: &[KindRow]) -> Result<Kinds, NoMemory> {
    let mut items = Vec::new(alloc);
    for row in rows {
        items.push(Kind {
            label: set_of(alloc, row.label)?,
            stmt: row.stmt,
            above: row.above,
            number: row.number,
            siblings: row.siblings,
            beside: row.beside,
        })?;
    }
    Ok(Kinds::new(items))
}

/// What links from a parent look at.
pub(crate) fn visible_of(alloc: Global, links: &[Link]) -> Result<ClassSet, NoMemory>
    ensures { IfOk result (λ v. v ≡ union_of [] (map (λ l. l.from) links.now)) }
{
    let mut visible = ClassSet::new(alloc);
    let mut rest = links;
    'links: while let Some((link, others)) = rest.split_first() {
        visible.add(link.from)?;
        rest = others;
    }
    Ok(visible)
}

/// The system of these rules.
pub fn system_of(alloc: Global, rules: &Rules) -> Result<System, NoMemory>
    ensures { IfOk result (λ s. s.visible ≡ union_of [] (map (λ l. l.from) s.up)) }
{
    let up = links(alloc, rules.up)?;
    let visible = visible_of(alloc, up.items())?;
    Ok(System {
        local: locals(alloc, rules.local)?,
        up,
        down: links(alloc, rules.down)?,
        child: spawns(alloc, rules.child)?,
        kinds: kinds(alloc, rules.kinds)?,
        visible,
    })
}
