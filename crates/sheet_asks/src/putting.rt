//! Gathers what a sheet asks for.
ghost use Rattle.std.specs.Prelude.{◌≡◌, map, OnOk};
ghost use Rattle.css_read.specs.Views.{item_of, outcome_of};
ghost use Rattle.sheet_asks.specs.Asked.{asked_names, judged_atoms, name_at, named};
ghost use Rattle.sheet_asks.specs.Putting.{parts_atoms, with_all_named};

use crate::asked::Asked;
use css_read::{Outcome, SheetItem};
use sel_text::Compound;
use tp_base::{Atom, AtomTable, NoMemory};

/// What was gathered so far, and the table of the sheet's atoms.
#[derive(Drop)]
pub(crate) struct Gathering<'t> {
    pub(crate) atoms: &'t AtomTable,
    pub(crate) asked: Asked<'t>,
}

impl<'t> Gathering<'t> {
    /// Adds what these selectors ask for, if they are judged. Linear in their atoms and these' names, on average.
    #[tactic(auto, using(crate::proofs::GatherSteps::item_first))]
    pub(crate) fn put_items(&mut self, items: &[SheetItem]) -> Result<(), NoMemory>
        ensures asked { OnOk result (self.new.asked ≡ with_all_named self.old.asked (asked_names self.old.atoms.now (map item_of items.now))) }
        ensures atoms { self.new.atoms ≡ self.old.atoms }
    {
        'items: for item in items {
            self.put_outcome(&item.outcome)?;
        }
        Ok(())
    }

    #[tactic(auto, using(crate::proofs::GatherSteps::of_selector))]
    fn put_outcome(&mut self, outcome: &Outcome) -> Result<(), NoMemory>
        ensures asked { OnOk result (self.new.asked ≡ with_all_named self.old.asked (named self.old.atoms.now (judged_atoms (outcome_of outcome.now)))) }
        ensures atoms { self.new.atoms ≡ self.old.atoms }
    {
        match outcome {
            Outcome::Judged(selector) => self.put_parts(selector.parts.items()),
            Outcome::Skipped(_, _) => Ok(()),
        }
    }

    #[tactic(auto, using(crate::proofs::GatherSteps::part_first))]
    fn put_parts(&mut self, parts: &[Compound]) -> Result<(), NoMemory>
        ensures asked { OnOk result (self.new.asked ≡ with_all_named self.old.asked (named self.old.atoms.now (parts_atoms parts.now))) }
        ensures atoms { self.new.atoms ≡ self.old.atoms }
    {
        'parts: for part in parts {
            self.put_part(part)?;
        }
        Ok(())
    }

    fn put_part(&mut self, part: &Compound) -> Result<(), NoMemory>
        ensures asked { OnOk result (self.new.asked ≡ with_all_named self.old.asked (named self.old.atoms.now part.now.atoms)) }
        ensures atoms { self.new.atoms ≡ self.old.atoms }
    {
        self.put_atoms(part.atoms.items())
    }

    #[tactic(auto, using(crate::proofs::GatherSteps::named_first))]
    fn put_atoms(&mut self, atoms: &[Atom]) -> Result<(), NoMemory>
        ensures asked { OnOk result (self.new.asked ≡ with_all_named self.old.asked (named self.old.atoms.now atoms.now)) }
        ensures atoms { self.new.atoms ≡ self.old.atoms }
    {
        'atoms: for atom in atoms {
            self.put_atom(*atom)?;
        }
        Ok(())
    }

    // An atom that the table lacks has no name.
    fn put_atom(&mut self, atom: Atom) -> Result<(), NoMemory>
        ensures asked { OnOk result (self.new.asked ≡ with_all_named self.old.asked (name_at self.old.atoms.now atom)) }
        ensures atoms { self.new.atoms ≡ self.old.atoms }
    {
        match self.atoms.name_of(atom) {
            None => Ok(()),
            Some((kind, name)) => self.asked.put(kind, name),
        }
    }
}
