//! Attributes that are asked for, each with its values.
ghost use Rattle.std.specs.Prelude.{◌≡◌, ◌≤◌, ◌∷◌, [], map, length, option_copied, option_map, option_to_list, IfOk, OnOk};
ghost use Rattle.std.specs.Map.{lookup};
ghost use Rattle.std.specs.Str.{bytes_eq};
ghost use Rattle.sheet_asks.specs.Asked as spec;
ghost use Rattle.sheet_asks.specs.Names.{is_among, with_all};
ghost use Rattle.indexmap.specs.IndexMap.{insert_entry};
ghost use Rattle.sheet_asks.specs.Putting.{with_attribute};

use crate::name_set::NameSet;
use indexmap::IndexMap;
use std::alloc::Global;
use std::marker::Model;
use tp_base::NoMemory;

/// Attributes, each once, with the values that are asked of it. A contract sees the list of them.
#[derive(Drop)]
pub(crate) struct Attributes<'t> {
    sets: IndexMap<&'t [u8], NameSet<'t>>,
}

impl<'t> Model for Attributes<'t> {
    ghost use Rattle.std.specs.Prelude.{ℕ, List, map};

    ghost Value = { List (List ℕ × List (List ℕ)) };

    ghost view = { λ a. map (λ e. (e.0.now, e.1)) a.sets.entries };
}

fn name_len(text: &[u8]) -> usize
    ensures gives { result ≡ spec.name_len text.now }
    ensures within { result ≤ length text.now }
{
    text.iter().take_while(|b| **b != b'=').count()
}

// The name of an attribute, and the value behind `=`, if one is asked for.
fn parts_of(text: &[u8]) -> (&[u8], Option<&[u8]>)
    ensures name { result.0.now ≡ spec.name_in text.now }
    ensures value { option_to_list (option_map (λ v. v.now) result.1) ≡ spec.value_in text.now }
{
    let (name, behind) = text.split_at(name_len(text));
    match behind.split_first() {
        None => (name, None),
        Some((_, value)) => (name, Some(value)),
    }
}

fn put_value<'t>(values: &mut NameSet<'t>, value: Option<&'t [u8]>) -> Result<(), NoMemory>
    ensures { OnOk result (values.new ≡ with_all values.old (option_to_list (option_map (λ v. v.now) value.entry))) }
{
    match value {
        None => Ok(()),
        Some(value) => values.put(value),
    }
}

impl<'t> Attributes<'t> {
    /// No attributes.
    pub(crate) fn new(alloc: Global) -> Self
        ensures { result ≡ [] }
    {
        Attributes {
            sets: IndexMap::new(alloc),
        }
    }

    /// The values that are asked of an attribute, if it is asked for. Linear in its name, on average.
    #[tactic(auto, using(crate::proofs::AttributeSteps::seen_at))]
    pub(crate) fn values_of(&self, attribute: &[u8]) -> Option<&NameSet<'t>>
        ensures { option_copied result ≡ lookup (bytes_eq attribute.now) self.now }
    {
        self.sets.get(attribute)
    }

    /// Whether an attribute is asked for. Linear in its name, on average.
    #[tactic(auto, using(crate::proofs::AttributeSteps::there, crate::proofs::AttributeSteps::not_there))]
    pub(crate) fn has(&self, attribute: &[u8]) -> bool
        ensures { result ≡ is_among (map (λ a. a.0) self.now) attribute.now }
    {
        match self.values_of(attribute) {
            None => false,
            Some(_) => true,
        }
    }

    /// Whether a value is asked of an attribute. Linear in both, on average.
    pub(crate) fn has_value(&self, name: &[u8], value: &[u8]) -> bool
        ensures { result ≡ is_among (spec.values_at self.now name.now) value.now }
    {
        match self.values_of(name) {
            None => false,
            Some(values) => values.has(value),
        }
    }

    /// The names of all. Linear in their number.
    #[tactic(auto, using(crate::proofs::AttributeSteps::seen_keys))]
    pub(crate) fn names(&self, alloc: Global) -> Result<Vec<&'t [u8]>, NoMemory>
        ensures { IfOk result (λ v. map (λ n. n.now) v.items ≡ map (λ a. a.0) self.now) }
    {
        let mut names = Vec::new(alloc);
        'names: for name in self.sets.keys() {
            names.push(*name)?;
        }
        Ok(names)
    }

    // The values of an attribute, which has an entry without any from then on.
    fn taken(&mut self, name: &'t [u8]) -> Result<NameSet<'t>, NoMemory>
        ensures taken { IfOk result (λ v. v ≡ spec.values_at self.old name.now) }
        ensures left { OnOk result (self.new ≡ insert_entry bytes_eq self.old name.now []) }
    {
        let alloc = *self.sets.allocator();
        let old = self.sets.insert(name, NameSet::new(alloc))?;
        Ok(old.unwrap_or(NameSet::new(alloc)))
    }

    /// Adds what the name of an attribute's atom asks for. Linear in it, on average.
    pub(crate) fn put(&mut self, text: &'t [u8]) -> Result<(), NoMemory>
        ensures { OnOk result (self.new ≡ with_attribute self.old text.now) }
    {
        let (name, value) = parts_of(text);
        let mut values = self.taken(name)?;
        put_value(&mut values, value)?;
        self.sets.insert(name, values)?;
        Ok(())
    }
}
