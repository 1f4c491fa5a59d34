//! Boxes of many classes in one another. A box gets boxes of n classes, and an i of the class z; the selectors are `.c1 .z` to
//! `.cn .z`, and `.c1 .c2` to `.cn .z` in one.
ghost use Rattle.std.specs.Prelude.{◌≡◌, ◌≤◌, ◌<◌, [], map, IfOk};
ghost use Rattle.tp_base.specs.Classes.{union_of};

use crate::building::visible_of;
use crate::trees::set_of;
use simple_core::{Kind, Kinds, Link, Links, Local, Locals, Spawn, Spawns, System};
use std::alloc::Global;
use tp_base::{Atom, NoMemory};

/// So many classes at most.
pub const MOST_CLASSES: u32 = 1_000;

// A div is 3, a box 4, the first class 5 and z 6.
const BOX: u32 = 4;

const Z: u32 = 6;

fn class(i: u32) -> u32
    requires { i ≤ MOST_CLASSES }
{
    if i == 0 { 5 } else { 6 + i }
}

// A box of the class is above.
fn above(n: u32, i: u32) -> u32
    requires n { n ≤ MOST_CLASSES }
    requires i { i ≤ MOST_CLASSES }
{
    7 + n + 2 * i
}

// A z is below a box of the class.
fn found(n: u32, i: u32) -> u32
    requires n { n ≤ MOST_CLASSES }
    requires i { i ≤ MOST_CLASSES }
{
    8 + n + 2 * i
}

// The node is the end of the first i + 2 parts of the long selector.
fn step(n: u32, i: u32) -> u32
    requires n { n ≤ MOST_CLASSES }
    requires i { i ≤ MOST_CLASSES }
{
    7 + 3 * n + 2 * i
}

// Such a node is above.
fn over(n: u32, i: u32) -> u32
    requires n { n ≤ MOST_CLASSES }
    requires i { i ≤ MOST_CLASSES }
{
    8 + 3 * n + 2 * i
}

/// The atom of a node at which, or below which, the selector of this number matches.
pub fn mark(n: u32, i: u32) -> u32
    requires n { n ≤ MOST_CLASSES }
    requires i { i ≤ MOST_CLASSES }
{
    6 + 5 * n + i
}

fn rule(alloc: Global, first: u32, second: u32, gives: u32) -> Result<Local, NoMemory> {
    Ok(Local {
        needs: set_of(alloc, &[first, second])?,
        gives: Atom(gives),
        stmt: None,
    })
}

fn link(from: u32, to: u32) -> Link {
    Link {
        from: Atom(from),
        to: Atom(to),
    }
}

fn add_short(alloc: Global, n: u32, i: u32, rules: &mut Vec<Local>) -> Result<(), NoMemory>
    requires n { n ≤ MOST_CLASSES }
    requires i { i < n }
{
    rules.push(rule(alloc, Z, above(n, i), found(n, i))?)?;
    rules.push(rule(alloc, found(n, i), found(n, i), mark(n, i))?)?;
    Ok(())
}

// The next part of the long selector: a class, or z at its end.
fn part(n: u32, i: u32) -> u32
    requires n { n ≤ MOST_CLASSES }
    requires i { i < n }
{
    if i + 1 < n { class(i + 1) } else { Z }
}

fn before(n: u32, i: u32) -> u32
    requires n { n ≤ MOST_CLASSES }
    requires i { i < n }
{
    if i == 0 { above(n, 0) } else { over(n, i - 1) }
}

fn add_long(alloc: Global, n: u32, rules: &mut Vec<Local>) -> Result<(), NoMemory>
    requires n { n ≤ MOST_CLASSES }
{
    for i in 0..n {
        rules.push(rule(alloc, part(n, i), before(n, i), step(n, i))?)?;
    }
    Ok(())
}

fn locals(alloc: Global, n: u32) -> Result<Locals, NoMemory>
    requires some { 0 < n }
    requires n { n ≤ MOST_CLASSES }
{
    let mut rules = Vec::new(alloc);
    for i in 0..n {
        add_short(alloc, n, i, &mut rules)?;
    }
    add_long(alloc, n, &mut rules)?;
    let last = step(n, n - 1);
    rules.push(rule(alloc, last, last, mark(n, n))?)?;
    Locals::new(rules)
}

fn add_ups(n: u32, i: u32, links: &mut Vec<Link>) -> Result<(), NoMemory>
    requires n { n ≤ MOST_CLASSES }
    requires i { i < n }
{
    links.push(link(class(i), above(n, i)))?;
    links.push(link(above(n, i), above(n, i)))?;
    if i + 1 < n {
        links.push(link(step(n, i), over(n, i)))?;
        links.push(link(over(n, i), over(n, i)))?;
    }
    Ok(())
}

fn ups(alloc: Global, n: u32) -> Result<Links, NoMemory>
    requires n { n ≤ MOST_CLASSES }
{
    let mut links = Vec::new(alloc);
    for i in 0..n {
        add_ups(n, i, &mut links)?;
    }
    Ok(Links::new(links))
}

fn downs(alloc: Global, n: u32) -> Result<Links, NoMemory>
    requires n { n ≤ MOST_CLASSES }
{
    let mut links = Vec::new(alloc);
    for i in 0..n + 1 {
        links.push(link(mark(n, i), mark(n, i)))?;
    }
    Ok(Links::new(links))
}

fn spawns(alloc: Global, n: u32) -> Result<Spawns, NoMemory>
    requires n { n ≤ MOST_CLASSES }
{
    let mut items = Vec::new(alloc);
    for kind in 0..n + 1 {
        items.push(Spawn {
            needs: Atom(BOX),
            kind,
        })?;
    }
    Ok(Spawns::new(items))
}

fn kind(alloc: Global, label: &[u32]) -> Result<Kind, NoMemory> {
    Ok(Kind {
        label: set_of(alloc, label)?,
        stmt: 0,
        above: None,
        number: 0,
        siblings: 1,
        beside: false,
    })
}

fn kinds(alloc: Global, n: u32) -> Result<Kinds, NoMemory>
    requires n { n ≤ MOST_CLASSES }
{
    let mut items = Vec::new(alloc);
    for i in 0..n {
        items.push(kind(alloc, &[3, BOX, class(i)])?)?;
    }
    items.push(kind(alloc, &[Z, 6 + n])?)?;
    Ok(Kinds::new(items))
}

/// The system of n classes. The box of the class i is the kind i, and the i the kind n.
pub fn nested(alloc: Global, n: u32) -> Result<System, NoMemory>
    requires some { 0 < n }
    requires n { n ≤ MOST_CLASSES }
    ensures { IfOk result (λ s. s.visible ≡ union_of [] (map (λ l. l.from) s.up)) }
{
    let up = ups(alloc, n)?;
    let visible = visible_of(alloc, up.items())?;
    Ok(System {
        local: locals(alloc, n)?,
        up,
        down: downs(alloc, n)?,
        child: spawns(alloc, n)?,
        kinds: kinds(alloc, n)?,
        visible,
    })
}
