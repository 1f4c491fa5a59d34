//! What attributes come to.
ghost use Rattle.std.specs.Prelude.{◌≡◌, ◌++◌, if◌then◌else◌, option_map, OnOk, IfOk};
ghost use Rattle.gifts.specs.Attributes as spec;
ghost use Rattle.gifts.specs.declared.given.Gift.TheVariants.{Attribute, AnyValue};

use crate::classes::{give_any_class, give_classes, push_gift};
use crate::given::{Gift, Given, Kind, Setter, What};
use crate::ids::{give_any_id, give_id, push_kind};
use sheet_asks::{Asked, brings_code, is_switch};
use std::alloc::Global;
use tp_base::{Items, NoMemory};

/// How and where an attribute is set, its name in lower case, and the text that it is set to, if that is known.
#[derive(Clone, Copy)]
pub struct Setting<'n> {
    pub at: usize,
    pub setter: Setter,
    pub name: &'n [u8],
    pub value: Option<&'n [u8]>,
}

fn keeps_text(setter: Setter, name: &[u8]) -> bool
    ensures { result ≡ spec.keeps_text setter name.now }
{
    match setter {
        Setter::Attribute => !is_switch(name),
        Setter::Property => false,
    }
}

fn copied(alloc: Global, text: &[u8]) -> Result<Items<u8>, NoMemory>
    ensures { IfOk result (λ v. v ≡ text.now) }
{
    Ok(Items::new(Vec::from_slice(alloc, text)?))
}

fn text_gift(alloc: Global, keeps: bool, name: &[u8], text: &[u8]) -> Result<Gift, NoMemory>
    ensures { IfOk result (λ g. g ≡ (if keeps then Attribute name.now text.now else AnyValue name.now)) }
{
    let name = copied(alloc, name)?;
    if keeps {
        Ok(Gift::Attribute(name, copied(alloc, text)?))
    } else {
        Ok(Gift::AnyValue(name))
    }
}

fn give_value(
    givens: &mut Vec<Given>,
    at: usize,
    keeps: bool,
    name: &[u8],
    value: Option<&[u8]>,
) -> Result<(), NoMemory>
    ensures { OnOk result (givens.new.items ≡ givens.old.items ++ spec.valued at keeps name.now (option_map (λ t. t.now) value.entry)) }
{
    let alloc = *givens.allocator();
    let gift = match value {
        Some(text) => text_gift(alloc, keeps, name, text)?,
        None => Gift::AnyValue(copied(alloc, name)?),
    };
    givens.push(Given {
        at,
        what: What::Gives(gift),
    })?;
    Ok(())
}

fn give_held(givens: &mut Vec<Given>, at: usize, name: &[u8]) -> Result<(), NoMemory>
    ensures { OnOk result (givens.new.items ≡ givens.old.items ++ spec.held_given at name.now) }
{
    if brings_code(name) {
        push_kind(givens, at, Kind::Code)
    } else if name == b"srcdoc".as_slice() {
        push_kind(givens, at, Kind::Markup)
    } else {
        Ok(())
    }
}

fn is_free(name: &[u8]) -> bool
    ensures { result ≡ spec.is_free name.now }
{
    name == b"style".as_slice() || name == b"open".as_slice()
}

fn give_asked(givens: &mut Vec<Given>, asked: &Asked, set: Setting<'_>) -> Result<(), NoMemory>
    ensures { OnOk result (givens.new.items ≡ givens.old.items ++ spec.value_given asked.now set.entry.at set.entry.setter set.entry.name.now (option_map (λ t. t.now) set.entry.value)) }
{
    if asked.has_attribute(set.name) {
        let keeps = keeps_text(set.setter, set.name);
        give_value(givens, set.at, keeps, set.name, set.value)
    } else {
        Ok(())
    }
}

fn give_other(givens: &mut Vec<Given>, asked: &Asked, set: Setting<'_>) -> Result<(), NoMemory>
    ensures { OnOk result (givens.new.items ≡ givens.old.items ++ (spec.held_given set.entry.at set.entry.name.now ++ spec.value_given asked.now set.entry.at set.entry.setter set.entry.name.now (option_map (λ t. t.now) set.entry.value))) }
{
    give_held(givens, set.at, set.name)?;
    give_asked(givens, asked, set)
}

/// Adds what it comes to that an attribute is set. Linear in its name and its value, on average.
#[tactic(auto, unfolding(crate::specs::Attributes::attribute))]
pub fn give_attribute(
    givens: &mut Vec<Given>,
    asked: &Asked,
    set: Setting<'_>,
) -> Result<(), NoMemory>
    ensures { OnOk result (givens.new.items ≡ givens.old.items ++ spec.attribute asked.now set.entry.at set.entry.setter set.entry.name.now (option_map (λ t. t.now) set.entry.value)) }
{
    if set.name == b"class".as_slice() {
        give_classes(givens, asked, set.at, set.value)
    } else if set.name == b"id".as_slice() {
        give_id(givens, asked, set.at, set.value)
    } else if is_free(set.name) {
        Ok(())
    } else {
        give_other(givens, asked, set)
    }
}

/// Adds what it comes to that an attribute is set whose name isn't known. Constant.
#[tactic(auto, unfolding(crate::specs::Attributes::any_attribute))]
pub fn give_any_attribute(givens: &mut Vec<Given>, asked: &Asked, at: usize) -> Result<(), NoMemory>
    ensures { OnOk result (givens.new.items ≡ givens.old.items ++ spec.any_attribute asked.now at) }
{
    give_any_class(givens, at)?;
    push_gift(givens, at, Gift::AnyAttribute)?;
    give_any_id(givens, asked, at)?;
    push_kind(givens, at, Kind::Code)
}
