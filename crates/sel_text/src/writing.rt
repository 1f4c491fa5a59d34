//! The printer of selectors.
ghost use Rattle.std.specs.Prelude.{◌≡◌, ◌≤◌, ◌+◌, ◌==◌, ◌++◌, not, length, IfOk, OnOk, slice_get};
ghost use Rattle.std.specs.List.{flat_map, list_any, prefix_len};
ghost use Rattle.tp_base.specs.Names.{IsDistinct};
ghost use Rattle.sel_text.specs.Readable.{IsReadable, ReadsAs};
ghost use Rattle.sel_text.specs.Parts.{join_of, selector_from};
ghost use Rattle.sel_text.specs.SelectorText.{atom_text, attribute_text, compound_text, join_text, quote_for, selector_text, value_text};
ghost use Rattle.sel_text.specs.Views.{selector_of};

use crate::selectors::{Compound, Join, Selector};
use std::alloc::Global;
use tp_base::{Atom, AtomKind, AtomTable, NoMemory};

/// The selector as it is written with the fewest bytes of white space: ` ` or ` > ` between compounds. An atom
/// that is not in the table is left out. Linear in the text.
#[tactic(auto, using(crate::proofs::PlainText::reads_as))]
pub fn write_selector(alloc: Global, s: &Selector, atoms: &AtomTable) -> Result<Vec<u8>, NoMemory>
    ensures text { IfOk result (λ text. text.items ≡ selector_text atoms.now (selector_of s.now)) }
    ensures reads_back { IfOk result (λ text. IsDistinct atoms.now → IsReadable atoms.now (selector_of s.now)
        → ReadsAs text.items (selector_of s.now) atoms.now) }
{
    let mut text = Vec::new(alloc);
    write_parts(&mut text, s.parts.items(), s.joins.items(), atoms)?;
    Ok(text)
}

/// Puts the text of a selector, as `write_selector` gives it, behind some bytes. After a refusal some of it may stand
/// there. Linear in the text.
pub fn put_selector(text: &mut Vec<u8>, s: &Selector, atoms: &AtomTable) -> Result<(), NoMemory>
    ensures { OnOk result (text.new.items ≡ text.old.items ++ selector_text atoms.now (selector_of s.now)) }
{
    write_parts(text, s.parts.items(), s.joins.items(), atoms)
}

// Compounds, and the joins between them.
#[tactic(auto, using(crate::proofs::WriteLemmas::first_part, crate::proofs::WriteLemmas::one_part_more, crate::proofs::WriteLemmas::all_parts))]
fn write_parts(
    text: &mut Vec<u8>,
    parts: &[Compound],
    joins: &[Join],
    atoms: &AtomTable,
) -> Result<(), NoMemory>
    requires { length parts.now ≡ length joins.now + 1 }
    ensures { OnOk result (text.new.items ≡ text.old.items ++ selector_text atoms.now (selector_from parts.now joins.now)) }
{
    write_compound(text, &parts[0], atoms)?;
    'parts: for i in 0..joins.len() {
        write_join(text, joins[i])?;
        write_compound(text, &parts[i + 1], atoms)?;
    }
    Ok(())
}

fn write_join(text: &mut Vec<u8>, join: Join) -> Result<(), NoMemory>
    ensures { OnOk result (text.new.items ≡ text.old.items ++ join_text (join_of join)) }
{
    match join {
        Join::Inside => text.extend_from_slice(b" ")?,
        Join::Child => text.extend_from_slice(b" > ")?,
    }
    Ok(())
}

#[tactic(auto, using(crate::proofs::WriteLemmas::no_atoms, crate::proofs::WriteLemmas::some_atoms))]
fn write_compound(
    text: &mut Vec<u8>,
    compound: &Compound,
    atoms: &AtomTable,
) -> Result<(), NoMemory>
    ensures { OnOk result (text.new.items ≡ text.old.items ++ compound_text atoms.now compound.now.atoms) }
{
    let items = compound.atoms.items();
    if items.is_empty() {
        text.push(b'*')?;
        Ok(())
    } else {
        write_atoms(text, items, atoms)
    }
}

#[tactic(auto, using(crate::proofs::WriteLemmas::one_atom_more))]
fn write_atoms(text: &mut Vec<u8>, items: &[Atom], atoms: &AtomTable) -> Result<(), NoMemory>
    ensures { OnOk result (text.new.items ≡ text.old.items ++ flat_map (λ a. atom_text (slice_get atoms.now a)) items.now) }
{
    for atom in items {
        write_atom(text, *atom, atoms)?;
    }
    Ok(())
}

// How long the name of an attribute is in the name of its atom, or of a value's atom.
fn attribute_len(text: &[u8]) -> usize
    ensures gives { result ≡ prefix_len (λ b. not (b == 61)) text.now }
    ensures within { result ≤ length text.now }
{
    text.iter().take_while(|b| **b != b'=').count()
}

fn has_quote(value: &[u8]) -> bool
    ensures { result ≡ list_any (λ b. b == 34) value.now }
{
    value.iter().any(|b| *b == b'"')
}

// The quotes in which a value is written.
fn quote_for(value: &[u8]) -> u8
    ensures { result ≡ quote_for value.now }
{
    if has_quote(value) { b'\'' } else { b'"' }
}

// What is behind an attribute's name.
#[tactic(auto, using(crate::proofs::WriteLemmas::value_written))]
fn write_value(text: &mut Vec<u8>, rest: &[u8]) -> Result<(), NoMemory>
    ensures { OnOk result (text.new.items ≡ text.old.items ++ value_text rest.now) }
{
    let Some((_, value)) = rest.split_first() else {
        return Ok(());
    };
    let quote = quote_for(value);
    text.push(b'=')?;
    text.push(quote)?;
    text.extend_from_slice(value)?;
    text.push(quote)?;
    Ok(())
}

#[tactic(auto, using(crate::proofs::WriteLemmas::attribute_written))]
fn write_attribute(text: &mut Vec<u8>, name: &[u8]) -> Result<(), NoMemory>
    ensures { OnOk result (text.new.items ≡ text.old.items ++ attribute_text name.now) }
{
    let (name, rest) = name.split_at(attribute_len(name));
    text.push(b'[')?;
    text.extend_from_slice(name)?;
    write_value(text, rest)?;
    text.push(b']')?;
    Ok(())
}

fn write_atom(text: &mut Vec<u8>, atom: Atom, atoms: &AtomTable) -> Result<(), NoMemory>
    ensures { OnOk result (text.new.items ≡ text.old.items ++ atom_text (slice_get atoms.now atom)) }
{
    let Some((kind, name)) = atoms.name_of(atom) else {
        return Ok(());
    };
    match kind {
        AtomKind::Class => text.push(b'.')?,
        AtomKind::Ident => text.push(b'#')?,
        AtomKind::Attr => return write_attribute(text, name),
        _ => {}
    }
    text.extend_from_slice(name)?;
    Ok(())
}
