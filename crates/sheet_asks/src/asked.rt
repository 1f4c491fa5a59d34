//! What a sheet asks for, and questions about it.
ghost use Rattle.std.specs.Prelude.{◌≡◌, [], ◌∷◌, ◌++◌, map, filter, option_copied, IfOk, OnOk};
ghost use Rattle.std.specs.Map.{lookup};
ghost use Rattle.std.specs.Str.{bytes_eq};
ghost use Rattle.css_read.specs.Views.{sheet_of};
ghost use Rattle.sheet_asks.specs.Asked as spec;
ghost use Rattle.sheet_asks.specs.Names.{is_among, with_all};
ghost use Rattle.sheet_asks.specs.Putting.{nothing, with_named};

use crate::attributes::Attributes;
use crate::name_set::NameSet;
use crate::putting::Gathering;
use css_read::Sheet;
use html_tokens::word_len;
use std::alloc::Global;
use std::marker::Model;
use text_bytes::is_blank;
use tp_base::{AtomKind, AtomTable, NoMemory};

// Adds a name that begins with `data-`.
fn put_data<'t>(names: &mut Vec<&'t [u8]>, name: &'t [u8]) -> Result<(), NoMemory>
    ensures { OnOk result (map (λ n. n.now) names.new.items ≡ map (λ n. n.now) names.old.items ++ filter spec.is_data_name (name.now ∷ [])) }
{
    if name.starts_with(b"data-") {
        names.push(name)?;
    }
    Ok(())
}

/// What the judged selectors of a sheet ask for, in the order of the sheet, each once. A name of an element or an attribute, and a
/// value, is asked for in lower case. Each question about one name is linear in it, on average.
#[derive(Drop)]
pub struct Asked<'t> {
    classes: NameSet<'t>,
    ids: NameSet<'t>,
    elements: NameSet<'t>,
    attributes: Attributes<'t>,
}

impl<'t> Model for Asked<'t> {
    ghost use Rattle.sheet_asks.specs.Asked as spec;

    ghost Value = { spec.Asked };

    ghost view = { λ a. record { classes = a.classes; ids = a.ids; elements = a.elements; attributes = a.attributes } };
}

impl<'t> Asked<'t> {
    /// What a sheet asks for whose atoms are of this table. Linear in its atoms and their names, on average.
    #[tactic(auto, using(crate::proofs::GatherSteps::all_of))]
    pub fn new(alloc: Global, sheet: &Sheet, atoms: &'t AtomTable) -> Result<Self, NoMemory>
        ensures { IfOk result (λ a. a ≡ spec.asked_in atoms.now (sheet_of sheet.now)) }
    {
        let mut gathering = Gathering {
            atoms,
            asked: Asked::nothing(alloc),
        };
        gathering.put_items(sheet.items.items())?;
        Ok(gathering.asked)
    }

    pub(crate) fn nothing(alloc: Global) -> Self
        ensures { result ≡ nothing }
    {
        Asked {
            classes: NameSet::new(alloc),
            ids: NameSet::new(alloc),
            elements: NameSet::new(alloc),
            attributes: Attributes::new(alloc),
        }
    }

    /// Adds a name. Linear in it, on average.
    pub(crate) fn put(&mut self, kind: AtomKind, name: &'t [u8]) -> Result<(), NoMemory>
        ensures { OnOk result (self.new ≡ with_named self.old (kind, name.now)) }
    {
        match kind {
            AtomKind::Class => self.classes.put(name),
            AtomKind::Ident => self.ids.put(name),
            AtomKind::Element => self.elements.put(name),
            AtomKind::Attr => self.attributes.put(name),
            AtomKind::Aux => Ok(()),
        }
    }

    /// Whether a class is asked for.
    pub fn has_class(&self, name: &[u8]) -> bool
        ensures { result ≡ is_among self.now.classes name.now }
    {
        self.classes.has(name)
    }

    /// Whether an id is asked for.
    pub fn has_id(&self, name: &[u8]) -> bool
        ensures { result ≡ is_among self.now.ids name.now }
    {
        self.ids.has(name)
    }

    /// Whether an element is asked for, by its name in lower case.
    pub fn has_element(&self, name: &[u8]) -> bool
        ensures { result ≡ is_among self.now.elements name.now }
    {
        self.elements.has(name)
    }

    /// Whether an attribute is asked for, alone or with a value, by its name in lower case.
    pub fn has_attribute(&self, name: &[u8]) -> bool
        ensures { result ≡ is_among (spec.attribute_names self.now) name.now }
    {
        self.attributes.has(name)
    }

    /// Whether a value is asked of an attribute, both in lower case.
    pub fn has_value(&self, name: &[u8], value: &[u8]) -> bool
        ensures { result ≡ is_among (spec.values_at self.now.attributes name.now) value.now }
    {
        self.attributes.has_value(name, value)
    }

    /// All classes. Constant.
    pub fn classes(&self) -> &[&'t [u8]]
        ensures { map (λ n. n.now) result.now ≡ self.now.classes }
    {
        self.classes.names()
    }

    /// All ids. Constant.
    pub fn ids(&self) -> &[&'t [u8]]
        ensures { map (λ n. n.now) result.now ≡ self.now.ids }
    {
        self.ids.names()
    }

    /// The names of all elements. Constant.
    pub fn elements(&self) -> &[&'t [u8]]
        ensures { map (λ n. n.now) result.now ≡ self.now.elements }
    {
        self.elements.names()
    }

    /// The names of all attributes. Linear in their number.
    pub fn attributes(&self, alloc: Global) -> Result<Vec<&'t [u8]>, NoMemory>
        ensures { IfOk result (λ v. map (λ n. n.now) v.items ≡ spec.attribute_names self.now) }
    {
        self.attributes.names(alloc)
    }

    /// The names of all attributes that begin with `data-`. Linear in the number of all.
    #[tactic(auto, using(crate::proofs::WordSteps::kept_next))]
    pub fn data_attributes(&self, alloc: Global) -> Result<Vec<&'t [u8]>, NoMemory>
        ensures { IfOk result (λ v. map (λ n. n.now) v.items ≡ spec.data_names self.now) }
    {
        let all = self.attributes.names(alloc)?;
        let mut names = Vec::new(alloc);
        'names: for name in &all {
            put_data(&mut names, name)?;
        }
        Ok(names)
    }

    /// The values that are asked of an attribute, if it is asked for, by its name in lower case.
    pub fn values_of(&self, name: &[u8]) -> Option<&NameSet<'t>>
        ensures { option_copied result ≡ lookup (bytes_eq name.now) self.now.attributes }
    {
        self.attributes.values_of(name)
    }

    /// The words of a text that are classes asked for, each once. Linear in the text, on average.
    #[tactic(auto, using(crate::proofs::WordSteps::blank_first, crate::proofs::WordSteps::word_first, crate::proofs::WordSteps::no_words, crate::proofs::WordSteps::kept_first))]
    pub fn classes_in<'w>(&self, alloc: Global, text: &'w [u8]) -> Result<NameSet<'w>, NoMemory>
        ensures { IfOk result (λ f. f ≡ spec.classes_in self.now text.now) }
    {
        let mut found = NameSet::new(alloc);
        let mut rest = text;
        'words: while let Some((first, behind)) = rest.split_first() {
            if is_blank(*first) {
                rest = behind;
            } else {
                let (word, others) = rest.split_at(word_len(rest));
                self.put_class(&mut found, word)?;
                rest = others;
            }
        }
        Ok(found)
    }

    // Adds a word that is a class asked for.
    fn put_class<'w>(&self, found: &mut NameSet<'w>, word: &'w [u8]) -> Result<(), NoMemory>
        ensures { OnOk result (found.new ≡ with_all found.old (filter (is_among self.now.classes) (word.now ∷ []))) }
    {
        if self.has_class(word) {
            found.put(word)?;
        }
        Ok(())
    }
}
