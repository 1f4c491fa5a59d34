//! The code and the templates of a page, and the code in the markup of strings.
#![tactic(auto)]

mod attributes;
mod bytes;
mod files;
mod references;
mod scripts;
mod sources;
mod tags;

pub use attributes::code_behind;
pub use bytes::HOLE;
pub use sources::{Kind, Source, sources_in_markup, sources_in_page};
pub use tags::{Placed, Tag, tags_in};
