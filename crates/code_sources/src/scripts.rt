//! The elements `script` of a page.
ghost use Rattle.std.specs.Prelude.{◌≡◌, ◌≤◌, ◌++◌, length, OnOk};
ghost use Rattle.std.specs.List.{prefix_len};
ghost use Rattle.html_tokens.specs.Bytes.{lowered};
ghost use Rattle.html_tokens.specs.Views.{bytes_of};
ghost use Rattle.code_sources.specs.Scripts as spec;
ghost use Rattle.code_sources.specs.Views.{tag_of};

use crate::bytes::{is_among, past_blanks};
use crate::files::{Scripts, is_known};
use crate::references::read_value;
use crate::sources::{Kind, Source};
use crate::tags::Tag;
use text_bytes::is_blank;
use tp_base::{Items, NoMemory};

// The types of scripts that a browser runs.
const RUN_TYPES: [&[u8]; 18] = [
    b"",
    b"module",
    b"application/ecmascript",
    b"application/javascript",
    b"application/x-ecmascript",
    b"application/x-javascript",
    b"text/ecmascript",
    b"text/javascript",
    b"text/javascript1.0",
    b"text/javascript1.1",
    b"text/javascript1.2",
    b"text/javascript1.3",
    b"text/javascript1.4",
    b"text/javascript1.5",
    b"text/jscript",
    b"text/livescript",
    b"text/x-ecmascript",
    b"text/x-javascript",
];

fn in_type(b: u8) -> bool
    ensures { result ≡ spec.in_type b }
{
    !(is_blank(b) || b == b';')
}

// Linear in it.
fn type_len(text: &[u8]) -> usize
    ensures gives { result ≡ prefix_len spec.in_type text.now }
    ensures within { result ≤ length text.now }
{
    text.iter().take_while(|b| in_type(**b)).count()
}

#[tactic(auto, unfolding(crate::specs::Scripts::type_word))]
fn type_word(text: &[u8]) -> &[u8]
    ensures { result.now ≡ spec.type_word text.now }
{
    let word = past_blanks(text);
    word.split_at(type_len(word)).0
}

#[tactic(auto, unfolding(crate::specs::Scripts::is_run_type), using(crate::proofs::ScriptSteps::run_types_are))]
fn is_run_type(word: &[u8]) -> bool
    ensures { result ≡ spec.is_run_type (lowered word.now) }
{
    is_among(&RUN_TYPES, word)
}

// Whether a script of this type is run.
fn is_run(kind: Option<&[u8]>) -> bool
    ensures { result ≡ spec.is_run (bytes_of kind.entry) }
{
    match kind {
        None => true,
        Some(text) => is_run_type(type_word(text)),
    }
}

fn opens_markup(text: &[u8]) -> bool
    ensures { result ≡ spec.opens_markup text.now }
{
    match text {
        [] => false,
        [first, ..] => {
            first.is_ascii_alphabetic() || matches!(first, b'{' | b'%' | b'$' | b'[' | b'#')
        }
    }
}

// Linear in the text.
#[tactic(auto, unfolding(crate::specs::Scripts::holds_markup))]
fn holds_markup(text: &[u8]) -> bool
    ensures { result ≡ spec.holds_markup text.now }
{
    let mut rest = text;
    'bytes: while let Some((first, behind)) = rest.split_first() {
        if *first == b'<' && opens_markup(behind) {
            return true;
        }
        rest = behind;
    }
    false
}

fn push_inside(found: &mut Vec<Source>, kind: Kind, tag: &Tag<'_>) -> Result<(), NoMemory>
    ensures { OnOk result (found.new.items ≡ found.old.items ++ spec.inside kind (tag_of tag.now)) }
{
    let text = Vec::from_slice(*found.allocator(), tag.inside)?;
    found.push(Source {
        kind,
        text: Items::new(text),
        place: tag.inside_at,
        is_sure: true,
    })?;
    Ok(())
}

/// Adds the source that the text of a script is, if it is one. Linear in the element.
#[tactic(auto, unfolding(crate::specs::Scripts::sources_in_script))]
pub(crate) fn add_script(found: &mut Vec<Source>, tag: &Tag<'_>) -> Result<(), NoMemory>
    ensures { OnOk result (found.new.items ≡ found.old.items ++ spec.sources_in_script (tag_of tag.now)) }
{
    if is_run(tag.value(b"type")) {
        if tag.value(b"src").is_none() {
            push_inside(found, Kind::Script, tag)?;
        }
    } else if holds_markup(tag.inside) {
        push_inside(found, Kind::Template, tag)?;
    }
    Ok(())
}

/// Adds the file of a script, if it has one that isn't handed in. Linear in its address and in the names of the scripts.
#[tactic(auto, unfolding(crate::specs::Scripts::unseen))]
pub(crate) fn add_unseen(
    found: &mut Vec<Source>,
    scripts: &Scripts<'_>,
    tag: &Tag<'_>,
) -> Result<(), NoMemory>
    ensures { OnOk result (found.new.items ≡ found.old.items ++ spec.unseen scripts.now (tag_of tag.now)) }
{
    if let Some(address) = tag.value(b"src") {
        let said = read_value(*found.allocator(), address)?;
        if !is_known(scripts, said.text.items()) {
            found.push(Source {
                kind: Kind::Unseen,
                text: said.text,
                place: tag.at,
                is_sure: said.is_sure,
            })?;
        }
    }
    Ok(())
}
