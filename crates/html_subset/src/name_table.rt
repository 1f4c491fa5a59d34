//! The table of names with a cache of element names as they are written.
ghost use Rattle.std.specs.Prelude.{◌≡◌, [], Some, None, IfOk, IsErrOf, OnErr};
ghost use Rattle.tp_base.specs.Names.{with_name, IsDistinct};
ghost use Rattle.tp_base.specs.declared.atoms.AtomKind.TheVariants as named;
ghost use Rattle.html_tokens.specs.Bytes.{lowered};
ghost use Rattle.html_subset.specs.Results.{IsFront};

use html_table::{NameNotes, lowered};
use std::alloc::Global;
use std::marker::Model;
use std::mem::replace;
use tp_base::{Atom, AtomFault, AtomKind, AtomTable};

/// A table of names, in which an element's name that came before is found as it is written. A contract sees the names.
#[derive(Drop)]
pub(crate) struct NameTable {
    atoms: AtomTable,
    elements: NameNotes<Atom>,
}

impl Model for NameTable {
    ghost use Rattle.std.specs.Prelude.{List};
    ghost use Rattle.tp_base.specs.Names.{Named};
    ghost use Rattle.html_subset.specs.NameTables.{AreRight};

    ghost Value = { List Named };

    ghost view = { λ t. t.atoms };

    ghost invariant = { λ t. AreRight t.elements t.atoms };
}

// No name comes twice in a table.
fn have_one_place(atoms: &AtomTable)
    ensures { IsDistinct atoms.now }
{
    let _count = atoms.count();
}

impl NameTable {
    /// A table with the names of this one, and an empty cache.
    pub(crate) fn new(alloc: Global, atoms: AtomTable) -> Self
        ensures { result ≡ atoms }
    {
        NameTable {
            atoms,
            elements: NameNotes::new(alloc),
        }
    }

    /// The table of names, of which none is left here.
    pub(crate) fn take(&mut self, alloc: Global) -> AtomTable
        ensures names { result ≡ self.old }
        ensures none { self.new ≡ [] }
    {
        self.elements = NameNotes::new(alloc);
        replace(&mut self.atoms, AtomTable::new(alloc))
    }

    /// The number of a name, which is added where it is new. Linear in its text, on average.
    pub(crate) fn intern(&mut self, kind: AtomKind, name: &[u8]) -> Result<Atom, AtomFault>
        ensures ok { IfOk result (λ a. with_name self.old (kind, name.now) ≡ Some (a, self.new)) }
        ensures full { IsErrOf result AtomFault.TooManyAtoms → with_name self.old (kind, name.now) ≡ None }
        ensures err { OnErr result (self.new ≡ self.old) }
    {
        self.atoms.intern(kind, name)
    }

    /// The number of an element's name, whatever its case, which is added where it is new. Linear in the name; one that is new, or
    /// that another name took the note of, costs what `intern` does. Behind a want of memory it may have been added.
    pub(crate) fn element(&mut self, alloc: Global, name: &[u8]) -> Result<Atom, AtomFault>
        ensures ok { IfOk result (λ a. with_name self.old (named.Element, lowered name.now) ≡ Some (a, self.new)) }
        ensures full { IsErrOf result AtomFault.TooManyAtoms → (with_name self.old (named.Element, lowered name.now) ≡ None) × (self.new ≡ self.old) }
        ensures front { IsFront self.old self.new }
    {
        match self.elements.get(name) {
            Some(atom) => {
                have_one_place(&self.atoms);
                Ok(atom)
            }
            None => self.enter_element(alloc, name),
        }
    }

    // The same, where nothing is noted of the name. Its atom is from now on.
    fn enter_element(&mut self, alloc: Global, name: &[u8]) -> Result<Atom, AtomFault>
        ensures ok { IfOk result (λ a. with_name self.old (named.Element, lowered name.now) ≡ Some (a, self.new)) }
        ensures full { IsErrOf result AtomFault.TooManyAtoms → (with_name self.old (named.Element, lowered name.now) ≡ None) × (self.new ≡ self.old) }
        ensures front { IsFront self.old self.new }
    {
        let lower = lowered(alloc, name)?;
        let atom = self.atoms.intern(AtomKind::Element, lower.as_slice())?;
        self.elements.put(name, atom)?;
        Ok(atom)
    }
}
