//! Labels: a tag's names are entered into the table, and their atoms form the node's label.
ghost use Rattle.std.specs.Prelude.{◌≡◌, ◌<◌, true, not, if◌then◌else◌, [], ◌∷◌, ◌++◌, Some, length, take, drop, IfOk, OnOk};
ghost use Rattle.text_bytes.specs.Attributes.{is_among, with_value};
ghost use Rattle.tp_base.specs.Names.{with_name};
ghost use Rattle.tp_base.specs.declared.atoms.AtomKind.TheVariants as named;
ghost use Rattle.html_tokens.specs.Bytes.{lowered};
ghost use Rattle.html_tokens.specs.Words.{word_len};
ghost use Rattle.html_subset.specs.Labels as spec;
ghost use Rattle.html_subset.specs.Building.{node_names};
ghost use Rattle.html_subset.specs.Builders.{names_in, Enters, KeepsNames};
ghost use Rattle.html_subset.specs.Pages.{root_label};
ghost use Rattle.html_subset.specs.Counting.{with_attribute, name_then, with_attributes, names_then};
ghost use Rattle.html_subset.specs.Results.{Does, IsFront};
ghost use Rattle.html_tokens.specs.Attributes.{without_case, written, others_in};
ghost use Rattle.tp_base.specs.Classes.{with_class};
ghost use Rattle.html_tokens.specs.Views.{attribute_of, bytes_of, start_tag_of};

use crate::faults::PageFault;
use crate::name_table::NameTable;
use gathered::Gathered;
use html_table::lowered;
use html_tokens::{Attribute, StartTag, next_attribute, word_len};
use indexmap::IndexSet;
use std::alloc::Global;
use std::mem::replace;
use text_bytes::{is_blank, is_set_apart, with_value};
use tp_base::{Atom, AtomFault, AtomKind, AtomTable, ClassSet, NoMemory};

/// The names of attributes that came before, in lower case.
#[derive(Drop)]
pub(crate) struct NamesGiven {
    names: IndexSet<Vec<u8>>,
}

impl NamesGiven {
    pub(crate) fn new(alloc: Global) -> Self
        ensures { names_in result ≡ [] }
    {
        NamesGiven {
            names: IndexSet::new(alloc),
        }
    }

    // Enters a name in lower case, and tells whether it is new. Linear in the name, on average.
    fn enter(&mut self, name: Vec<u8>) -> Result<bool, NoMemory>
        ensures is_new { IfOk result (λ b. b ≡ not (is_among (names_in self.old) name.items)) }
        ensures entered { IfOk result (λ b. names_in self.new ≡ (if b then names_in self.old ++ name.items ∷ [] else names_in self.old)) }
    {
        let (_, is_new) = self.names.insert_full(name)?;
        Ok(is_new)
    }
}

/// The table of names, and the label of the tag at `at` as far as it was read.
#[derive(Drop)]
pub(crate) struct LabelBuilder {
    pub(crate) alloc: Global,
    pub(crate) atoms: NameTable,
    label: Gathered,
    at: usize,
}

// Whether a tag ends right behind its name.
fn ends_at_once(text: &[u8]) -> bool
    ensures { result ≡ true → others_in (written text.now) ≡ [] }
{
    match text.split_first() {
        Some((first, _)) => *first == b'>',
        None => false,
    }
}

// Whether a tag gives nothing but its name: it may be false of one that has white space behind it.
#[tactic(auto, using(crate::proofs::LabelLemmas::bare_names))]
fn is_bare(tag: StartTag<'_>) -> bool
    ensures { result ≡ true → node_names (start_tag_of tag.entry) ≡ (named.Element, lowered tag.entry.name.now) ∷ [] }
{
    match tag.id {
        None => match tag.class {
            None => ends_at_once(tag.attributes),
            Some(_) => false,
        },
        Some(_) => false,
    }
}

// The set of one atom.
fn only(alloc: Global, atom: Atom) -> Result<ClassSet, NoMemory>
    ensures { IfOk result (λ s. s ≡ with_class atom []) }
{
    let mut atoms = Vec::with_capacity(alloc, 1)?;
    atoms.push(atom)?;
    ClassSet::of(atoms)
}

impl LabelBuilder {
    /// A reader of labels over this table of names, with an empty label.
    pub(crate) fn new(alloc: Global, atoms: AtomTable) -> Self
        ensures { result.atoms ≡ atoms }
    {
        LabelBuilder {
            alloc,
            atoms: NameTable::new(alloc, atoms),
            label: Gathered::new(alloc),
            at: 0,
        }
    }

    /// Begins the label of the tag at `at`.
    pub(crate) fn begin(&mut self, at: usize)
        ensures label { self.new.label ≡ [] }
        ensures at { self.new.at ≡ at }
        ensures atoms { self.new.atoms ≡ self.old.atoms }
    {
        self.label = Gathered::new(self.alloc);
        self.at = at;
    }

    /// The atoms of the label.
    pub(crate) fn end(&mut self) -> Gathered
        ensures label { result ≡ self.old.label }
        ensures atoms { self.new.atoms ≡ self.old.atoms }
    {
        replace(&mut self.label, Gathered::new(self.alloc))
    }

    // Adds the atom of a name.
    #[tactic(auto, using(crate::proofs::Fronts::front_grown, crate::proofs::Fronts::front_itself))]
    fn add_name(&mut self, kind: AtomKind, name: &[u8]) -> Result<(), PageFault>
        ensures does { Does (λ _. (self.new.label, self.new.atoms)) result self.new.atoms
            (spec.and_one self.old.at self.old.label self.old.atoms (with_name self.old.atoms (kind, name.now))) }
        ensures keeps { KeepsNames self.old self.new }
    {
        match self.atoms.intern(kind, name) {
            Ok(atom) => {
                self.label.add(atom)?;
                Ok(())
            }
            Err(AtomFault::TooManyAtoms) => Err(PageFault::TooManyAtoms(self.at)),
            Err(AtomFault::Memory) => Err(PageFault::Memory),
        }
    }

    // Adds the class that the text begins with, and lends the text behind it.
    fn add_class<'t>(&mut self, text: &'t [u8]) -> Result<&'t [u8], PageFault>
        requires { 0 < word_len text.now }
        ensures does { Does (λ _. (self.new.label, self.new.atoms)) result self.new.atoms
            (spec.and_one self.old.at self.old.label self.old.atoms (with_name self.old.atoms (named.Class, take (word_len text.now) text.now))) }
        ensures rest { IfOk result (λ r. r.now ≡ drop (word_len text.now) text.now) }
        ensures shorter { IfOk result (λ r. length r.now < length text.now) }
        ensures keeps { KeepsNames self.old self.new }
    {
        let (class, rest) = text.split_at(word_len(text));
        self.add_name(AtomKind::Class, class)?;
        Ok(rest)
    }

    // Adds the classes of an attribute's value, which white space parts. Linear in the value.
    #[tactic(auto, using(crate::proofs::ClassSteps::blank, crate::proofs::ClassSteps::goes_on, crate::proofs::ClassSteps::fails, crate::proofs::ClassSteps::ends, html_tokens::proofs::WordLemmas::some_word, crate::proofs::ClassSteps::opened, crate::proofs::Fronts::front_of_front, crate::proofs::Fronts::front_itself))]
    fn add_classes(&mut self, value: &[u8]) -> Result<(), PageFault>
        ensures enters { Enters (spec.class_names (Some value.now)) self.old self.new result }
        ensures keeps { KeepsNames self.old self.new }
    {
        let mut rest = value;
        'classes: while let Some((first, behind)) = rest.split_first() {
            if is_blank(*first) {
                rest = behind;
            } else {
                rest = self.add_class(rest)?;
            }
        }
        Ok(())
    }

    // Adds an id, unless it is empty.
    #[tactic(auto, using(crate::proofs::LabelLemmas::one_name, crate::proofs::LabelLemmas::no_name, crate::proofs::Fronts::front_itself))]
    fn add_id(&mut self, id: Option<&[u8]>) -> Result<(), PageFault>
        ensures enters { Enters (spec.id_names (bytes_of id.entry)) self.old self.new result }
        ensures keeps { KeepsNames self.old self.new }
    {
        match id {
            None | Some([]) => Ok(()),
            Some(id) => self.add_name(AtomKind::Ident, id),
        }
    }

    /// Adds the id, and then the classes as they are written.
    #[tactic(auto, using(crate::proofs::LabelLemmas::in_turn, crate::proofs::LabelLemmas::no_name, crate::proofs::Fronts::front_of_front, crate::proofs::Fronts::front_itself))]
    pub(crate) fn add_id_and_classes(
        &mut self,
        id: Option<&[u8]>,
        class: Option<&[u8]>,
    ) -> Result<(), PageFault>
        ensures enters { Enters (spec.id_names (bytes_of id.entry) ++ spec.class_names (bytes_of class.entry)) self.old self.new result }
        ensures keeps { KeepsNames self.old self.new }
    {
        self.add_id(id)?;
        match class {
            None => Ok(()),
            Some(value) => self.add_classes(value),
        }
    }

    // Adds the two atoms of an attribute, whose name is in lower case.
    #[tactic(auto, using(crate::proofs::LabelLemmas::two_names, crate::proofs::Fronts::front_of_front, crate::proofs::Fronts::front_itself))]
    fn add_both(&mut self, name: &[u8], value: &[u8]) -> Result<(), PageFault>
        ensures enters { Enters ((named.Attr, name.now) ∷ (named.Attr, with_value name.now (lowered value.now)) ∷ []) self.old self.new result }
        ensures keeps { KeepsNames self.old self.new }
    {
        self.add_name(AtomKind::Attr, name)?;
        let value = lowered(self.alloc, value)?;
        let pair = with_value(self.alloc, name, value.as_slice())?;
        self.add_name(AtomKind::Attr, pair.as_slice())
    }

    // Adds the atoms of an attribute, unless it is set apart or its name came before.
    #[tactic(auto, using(crate::proofs::AttributeLemmas::skips_apart, crate::proofs::AttributeLemmas::names_apart, crate::proofs::AttributeLemmas::skips_known, crate::proofs::AttributeLemmas::names_known, crate::proofs::AttributeLemmas::takes_new, crate::proofs::AttributeLemmas::names_new, crate::proofs::Fronts::front_itself))]
    fn add_attribute(
        &mut self,
        given: &mut NamesGiven,
        attribute: Attribute<'_>,
    ) -> Result<(), PageFault>
        ensures does { Does (λ _. (self.new.label, self.new.atoms)) result self.new.atoms
            (with_attribute self.old.at (names_in given.old) (without_case (attribute_of attribute.entry)) self.old.label self.old.atoms) }
        ensures given { OnOk result (name_then (names_in given.old) (without_case (attribute_of attribute.entry)) ≡ names_in given.new) }
        ensures keeps { KeepsNames self.old self.new }
    {
        if is_set_apart(attribute.name) {
            return Ok(());
        }
        let name = lowered(self.alloc, attribute.name)?;
        let entered = lowered(self.alloc, attribute.name)?;
        let is_new = given.enter(entered)?;
        if !is_new {
            return Ok(());
        }
        self.add_both(name.as_slice(), attribute.value)?;
        Ok(())
    }

    /// Adds the atoms of the attributes in a tag, from behind its name on, that aren't set apart and whose names are new. Linear in
    /// the tag, on average.
    #[tactic(auto, using(crate::proofs::AttributeLemmas::goes_on, crate::proofs::AttributeLemmas::names_go_on, crate::proofs::AttributeLemmas::fails, crate::proofs::AttributeLemmas::ends, crate::proofs::AttributeLemmas::names_end, crate::proofs::Fronts::front_of_front, crate::proofs::Fronts::front_itself))]
    pub(crate) fn add_attributes(
        &mut self,
        given: &mut NamesGiven,
        tag: &[u8],
    ) -> Result<(), PageFault>
        ensures does { Does (λ _. (self.new.label, self.new.atoms)) result self.new.atoms (with_attributes self.old.at (names_in given.old) tag.now self.old.label self.old.atoms) }
        ensures given { OnOk result (names_then (names_in given.old) tag.now ≡ names_in given.new) }
        ensures keeps { KeepsNames self.old self.new }
    {
        let mut rest = tag;
        'attributes: while let Some((attribute, behind)) = next_attribute(rest) {
            self.add_attribute(given, attribute)?;
            rest = behind;
        }
        Ok(())
    }

    // Adds the atom of an element's name.
    #[tactic(auto, using(crate::proofs::LabelLemmas::one_name, crate::proofs::Fronts::front_itself))]
    fn add_element(&mut self, name: &[u8]) -> Result<(), PageFault>
        ensures enters { Enters ((named.Element, lowered name.now) ∷ []) self.old self.new result }
        ensures keeps { KeepsNames self.old self.new }
    {
        match self.atoms.element(self.alloc, name) {
            Ok(atom) => {
                self.label.add(atom)?;
                Ok(())
            }
            Err(AtomFault::TooManyAtoms) => Err(PageFault::TooManyAtoms(self.at)),
            Err(AtomFault::Memory) => Err(PageFault::Memory),
        }
    }

    /// The atom of an element of this name, of which there is no tag yet.
    #[tactic(auto, using(crate::proofs::Fronts::front_itself))]
    pub(crate) fn element_label(&mut self, name: &[u8]) -> Result<Gathered, PageFault>
        ensures does { Does (λ l. (l, self.new.atoms)) result self.new.atoms (root_label (lowered name.now) self.old.atoms) }
        ensures front { IsFront self.old.atoms self.new.atoms }
    {
        self.begin(0);
        self.add_element(name)?;
        Ok(self.end())
    }

    // The label of a node of this name that has no attributes, for a tag at `at`. Linear in the name.
    #[tactic(auto, using(crate::proofs::LabelLemmas::one_name))]
    fn bare_label(&mut self, name: &[u8], at: usize) -> Result<ClassSet, PageFault>
        ensures does { Does (λ l. (l, self.new.atoms)) result self.new.atoms (spec.labelled at ((named.Element, lowered name.now) ∷ []) [] self.old.atoms) }
        ensures front { IsFront self.old.atoms self.new.atoms }
    {
        match self.atoms.element(self.alloc, name) {
            Ok(atom) => {
                let set = only(self.alloc, atom)?;
                Ok(set)
            }
            Err(AtomFault::TooManyAtoms) => Err(PageFault::TooManyAtoms(at)),
            Err(AtomFault::Memory) => Err(PageFault::Memory),
        }
    }

    // The label of the node that a tag adds, whatever attributes it has.
    #[tactic(auto, using(crate::proofs::AttributeLemmas::node_in_turn, crate::proofs::LabelLemmas::first_name, crate::proofs::Fronts::front_of_front))]
    fn full_label(&mut self, tag: StartTag<'_>) -> Result<ClassSet, PageFault>
        ensures does { Does (λ l. (l, self.new.atoms)) result self.new.atoms (spec.labelled tag.entry.at (node_names (start_tag_of tag.entry)) [] self.old.atoms) }
        ensures front { IsFront self.old.atoms self.new.atoms }
    {
        self.begin(tag.at);
        self.add_element(tag.name)?;
        self.add_id_and_classes(tag.id, tag.class)?;
        let mut given = NamesGiven::new(self.alloc);
        self.add_attributes(&mut given, tag.attributes)?;
        let set = self.end().into_set()?;
        Ok(set)
    }

    /// The label of the node that a tag adds. Linear in the tag, on average, but for one sort of its atoms.
    pub(crate) fn node_label(&mut self, tag: StartTag<'_>) -> Result<ClassSet, PageFault>
        ensures does { Does (λ l. (l, self.new.atoms)) result self.new.atoms (spec.labelled tag.entry.at (node_names (start_tag_of tag.entry)) [] self.old.atoms) }
        ensures front { IsFront self.old.atoms self.new.atoms }
    {
        if is_bare(tag) {
            self.bare_label(tag.name, tag.at)
        } else {
            self.full_label(tag)
        }
    }
}
