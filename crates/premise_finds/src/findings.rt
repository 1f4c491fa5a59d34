//! Findings, and the list of them.
ghost use Rattle.std.specs.Prelude.{◌≡◌, ◌++◌, OnOk};
ghost use Rattle.premise_finds.specs.Findings.{when, finding};

use crate::names::Name;
use std::alloc::AllocError;
use tp_base::Items;

/// A finding: what it is, and the bytes from `from` up to and without `to`.
#[derive(Clone, Copy, Debug, PartialEq, Eq)]
pub struct Finding {
    pub name: Name,
    pub from: usize,
    pub to: usize,
}

/// Findings, in their order. A contract sees the list of them.
pub type Findings = Items<Finding>;

/// Adds a finding where it holds. Constant on average.
pub fn add_when(
    found: &mut Vec<Finding>,
    holds: bool,
    name: Name,
    from: usize,
    to: usize,
) -> Result<(), AllocError>
    ensures { OnOk result (found.new.items ≡ found.old.items ++ when holds (finding name from to)) }
{
    if holds {
        found.push(Finding { name, from, to })?;
    }
    Ok(())
}
