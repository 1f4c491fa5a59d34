//! Names of properties and attributes.
ghost use Rattle.std.specs.Prelude.{◌≡◌, map, option_map, IfOk};
ghost use Rattle.std.specs.Map.{lookup};
ghost use Rattle.std.specs.Str.{bytes_eq};
ghost use Rattle.sheet_asks.specs.Properties as spec;
ghost use Rattle.sheet_asks.specs.Names.{is_among as among};

use std::alloc::Global;
use tp_base::NoMemory;

// Properties, each with the attribute that it sets under another name.
const RENAMED: [(&[u8], &[u8]); 34] = [
    (b"className", b"class"),
    (b"htmlFor", b"for"),
    (b"httpEquiv", b"http-equiv"),
    (b"acceptCharset", b"accept-charset"),
    (b"encoding", b"enctype"),
    (b"defaultValue", b"value"),
    (b"defaultChecked", b"checked"),
    (b"defaultSelected", b"selected"),
    (b"defaultMuted", b"muted"),
    (b"ch", b"char"),
    (b"chOff", b"charoff"),
    (b"fgColor", b"text"),
    (b"linkColor", b"link"),
    (b"alinkColor", b"alink"),
    (b"vlinkColor", b"vlink"),
    (b"popoverTargetElement", b"popovertarget"),
    (b"commandForElement", b"commandfor"),
    (b"ariaActiveDescendantElement", b"aria-activedescendant"),
    (b"ariaControlsElements", b"aria-controls"),
    (b"ariaDescribedByElements", b"aria-describedby"),
    (b"ariaDetailsElements", b"aria-details"),
    (b"ariaErrorMessageElements", b"aria-errormessage"),
    (b"ariaFlowToElements", b"aria-flowto"),
    (b"ariaLabelledByElements", b"aria-labelledby"),
    (b"ariaOwnsElements", b"aria-owns"),
    (b"hash", b"href"),
    (b"host", b"href"),
    (b"hostname", b"href"),
    (b"password", b"href"),
    (b"pathname", b"href"),
    (b"port", b"href"),
    (b"protocol", b"href"),
    (b"search", b"href"),
    (b"username", b"href"),
];

// The attributes to which jQuery gives their own name as the value.
const SWITCHES: [&[u8]; 16] = [
    b"async",
    b"autofocus",
    b"autoplay",
    b"checked",
    b"controls",
    b"defer",
    b"disabled",
    b"hidden",
    b"ismap",
    b"loop",
    b"multiple",
    b"open",
    b"readonly",
    b"required",
    b"scoped",
    b"selected",
];

// Where a user writes markup.
const EDITABLE: [&[u8]; 2] = [b"contenteditable", b"designmode"];

fn is_among(names: &[&[u8]], name: &[u8]) -> bool
    ensures { result ≡ among (map (λ n. n.now) names.now) name.now }
{
    let mut left = names;
    'names: while let [first, others @ ..] = left {
        if *first == name {
            return true;
        }
        left = others;
    }
    false
}

// The attribute of the first row of a property.
fn renamed_in<'r>(rows: &[(&[u8], &'r [u8])], property: &[u8]) -> Option<&'r [u8]>
    ensures { option_map (λ a. a.now) result ≡ lookup (bytes_eq property.now) (map (λ r. (r.0.now, r.1.now)) rows.now) }
{
    let mut left = rows;
    'rows: while let [(name, attribute), others @ ..] = left {
        if property == *name {
            return Some(*attribute);
        }
        left = others;
    }
    None
}

fn begins_upper(name: &[u8]) -> bool
    ensures { result ≡ spec.begins_upper name.now }
{
    match name {
        [] => false,
        [first, ..] => first.is_ascii_uppercase(),
    }
}

fn begins_letter(name: &[u8]) -> bool
    ensures { result ≡ spec.begins_letter name.now }
{
    match name {
        [] => false,
        [first, ..] => first.is_ascii_alphabetic(),
    }
}

fn is_aria(name: &[u8]) -> bool
    ensures { result ≡ spec.is_aria name.now }
{
    name.starts_with(b"aria") && begins_upper(name.split_at(4).1)
}

fn in_lower_case(alloc: Global, name: &[u8]) -> Result<Vec<u8>, NoMemory>
    ensures { IfOk result (λ v. v.items ≡ spec.in_lower_case name.now) }
{
    if !is_aria(name) {
        return Ok(name.to_ascii_lowercase(alloc)?);
    }
    let mut attribute = Vec::from_slice(alloc, b"aria-")?;
    attribute.extend_from_slice(&name.split_at(4).1.to_ascii_lowercase(alloc)?)?;
    Ok(attribute)
}

/// The name of the attribute that a property sets. Linear in the property.
#[tactic(auto, unfolding(crate::specs::Properties::attribute_of), using(crate::proofs::Tables::same_rows))]
pub fn attribute_of(alloc: Global, property: &[u8]) -> Result<Vec<u8>, NoMemory>
    ensures { IfOk result (λ v. v.items ≡ spec.attribute_of property.now) }
{
    match renamed_in(&RENAMED, property) {
        Some(attribute) => Ok(Vec::from_slice(alloc, attribute)?),
        None => in_lower_case(alloc, property),
    }
}

/// Whether jQuery gives an attribute its own name as the value, of a name in lower case. Linear in the name.
#[tactic(auto, unfolding(crate::specs::Properties::is_switch), using(crate::proofs::Tables::same_switches))]
pub fn is_switch(name: &[u8]) -> bool
    ensures { result ≡ spec.is_switch name.now }
{
    is_among(&SWITCHES, name)
}

/// Whether an attribute brings code: it holds code, or a user writes markup in its element. Its name is in lower case. Linear in it.
#[tactic(auto, unfolding(crate::specs::Properties::brings_code), using(crate::proofs::Tables::same_editable))]
pub fn brings_code(name: &[u8]) -> bool
    ensures { result ≡ spec.brings_code name.now }
{
    (name.starts_with(b"on") && begins_letter(name.split_at(2).1)) || is_among(&EDITABLE, name)
}
