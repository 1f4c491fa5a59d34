//! The sources of a page and of markup, in the order of their places.
ghost use Rattle.std.specs.Prelude.{◌≡◌, ◌++◌, map, flat_map, IfOk, OnOk};
ghost use Rattle.code_sources.specs.Attributes.{sources_in_attribute};
ghost use Rattle.code_sources.specs.Sources as spec;
ghost use Rattle.code_sources.specs.Views.{placed_of, tag_of};

use crate::attributes::add_attribute;
use crate::files::Scripts;
use crate::scripts::{add_script, add_unseen};
use crate::tags::{Placed, Tag, tags_in};
use std::alloc::Global;
use tp_base::{Items, NoMemory};

/// What a source is.
#[derive(Clone, Copy, Debug, PartialEq, Eq)]
pub enum Kind {
    /// The text of a script that is run, whose first byte is at the place.
    Script,
    /// The text of a script that has markup and isn't run, whose first byte is at the place.
    Template,
    /// Code in an attribute. The place of all of it is that of the value's first byte.
    Value,
    /// Such code with a hole in it.
    Holed,
    /// The address of a script's file that isn't handed in. The place is that of the script's `<`.
    Unseen,
}

/// A source. It is sure unless its text has a reference that isn't known here, or something else that a browser reads otherwise.
#[derive(Debug, Drop)]
pub struct Source {
    pub kind: Kind,
    pub text: Items<u8>,
    pub place: usize,
    pub is_sure: bool,
}

fn add_attributes(found: &mut Vec<Source>, attributes: &[Placed<'_>]) -> Result<(), NoMemory>
    ensures { OnOk result (found.new.items ≡ found.old.items ++ flat_map sources_in_attribute (map placed_of attributes.now)) }
{
    'attributes: for placed in attributes {
        add_attribute(found, placed)?;
    }
    Ok(())
}

// Adds the sources of a tag.
#[tactic(auto, unfolding(crate::specs::Sources::sources_in_tag), using(crate::proofs::SourceSteps::three))]
fn add_tag(found: &mut Vec<Source>, scripts: &Scripts<'_>, tag: &Tag<'_>) -> Result<(), NoMemory>
    ensures { OnOk result (found.new.items ≡ found.old.items ++ spec.sources_in_tag scripts.now (tag_of tag.now)) }
{
    if tag.is_named(b"script") {
        add_unseen(found, scripts, tag)?;
        add_attributes(found, tag.attributes.items())?;
        add_script(found, tag)?;
    } else {
        add_attributes(found, tag.attributes.items())?;
    }
    Ok(())
}

fn add_tags(
    found: &mut Vec<Source>,
    scripts: &Scripts<'_>,
    tags: &[Tag<'_>],
) -> Result<(), NoMemory>
    ensures { OnOk result (found.new.items ≡ found.old.items ++ flat_map (spec.sources_in_tag scripts.now) (map tag_of tags.now)) }
{
    'tags: for tag in tags {
        add_tag(found, scripts, tag)?;
    }
    Ok(())
}

fn add_all_attributes(found: &mut Vec<Source>, tags: &[Tag<'_>]) -> Result<(), NoMemory>
    ensures { OnOk result (found.new.items ≡ found.old.items ++ flat_map spec.sources_in_attributes (map tag_of tags.now)) }
{
    'tags: for tag in tags {
        add_attributes(found, tag.attributes.items())?;
    }
    Ok(())
}

/// The sources of a page, where the names of the scripts that are handed in are given. Linear in the page, and in those names for each script that
/// has a file.
#[tactic(auto, unfolding(crate::specs::Sources::sources_in_page))]
pub fn sources_in_page(
    alloc: Global,
    scripts: &[&[u8]],
    page: &[u8],
) -> Result<Items<Source>, NoMemory>
    ensures { IfOk result (λ found. found ≡ spec.sources_in_page (map (λ s. s.now) scripts.now) page.now) }
{
    let tags = tags_in(alloc, page)?;
    let mut found = Vec::new(alloc);
    add_tags(&mut found, &Scripts { names: scripts }, tags.items())?;
    Ok(Items::new(found))
}

/// The sources in the markup of a string, whose places are offsets in it. A hole is the byte `HOLE`. Linear in the text.
#[tactic(auto, unfolding(crate::specs::Sources::sources_in_markup))]
pub fn sources_in_markup(alloc: Global, text: &[u8]) -> Result<Items<Source>, NoMemory>
    ensures { IfOk result (λ found. found ≡ spec.sources_in_markup text.now) }
{
    let tags = tags_in(alloc, text)?;
    let mut found = Vec::new(alloc);
    add_all_attributes(&mut found, tags.items())?;
    Ok(Items::new(found))
}
