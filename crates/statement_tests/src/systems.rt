//! Systems as text.
use guard_simplify::Simplified;
use simple_core::{Link, Local, System};
use std::alloc::{AllocError, Global};
use tp_base::{Atom, ClassSet};

// The atoms of a set, each with a space before it.
fn add_set(out: &mut String, set: &ClassSet) -> Result<(), AllocError> {
    for i in 0..set.len() {
        write!(out, " {}", set.at(i).0)?;
    }
    Ok(())
}

fn add_locals(out: &mut String, locals: &[Local]) -> Result<(), AllocError> {
    for rule in locals {
        out.push_str("local")?;
        add_set(out, &rule.needs)?;
        write!(out, " gives {}; ", rule.gives.0)?;
    }
    Ok(())
}

fn add_links(out: &mut String, name: &str, links: &[Link]) -> Result<(), AllocError> {
    for link in links {
        write!(out, "{name} {} to {}; ", link.from.0, link.to.0)?;
    }
    Ok(())
}

fn add_atoms(out: &mut String, atoms: &[Atom]) -> Result<(), AllocError> {
    for atom in atoms {
        write!(out, " {}", atom.0)?;
    }
    Ok(())
}

fn add_counts(out: &mut String, system: &System) -> Result<(), AllocError> {
    let spawns = system.child.items().len();
    let kinds = system.kinds.items().len();
    write!(out, "{spawns} spawns, {kinds} kinds; visible")
}

fn add_system(out: &mut String, made: &Simplified) -> Result<(), AllocError> {
    let system = &made.system;
    add_locals(out, system.local.items())?;
    add_links(out, "up", system.up.items())?;
    add_links(out, "down", system.down.items())?;
    add_counts(out, system)?;
    add_set(out, &system.visible)?;
    out.push_str("; seen")?;
    add_atoms(out, made.seen.items())
}

/// The rules of a system that adds no nodes, its visible atoms and the atoms that are seen.
pub fn written(alloc: Global, made: &Simplified) -> Result<String, AllocError> {
    let mut out = String::new(alloc);
    add_system(&mut out, made)?;
    Ok(out)
}
