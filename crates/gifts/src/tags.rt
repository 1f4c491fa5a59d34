//! Start tags.
use tp_base::Items;

/// What an attribute of a tag says.
#[derive(Debug, Drop)]
pub enum Held {
    /// This.
    Text(Items<u8>),
    /// Anything.
    Any,
}

/// An attribute of a tag. Its name is in lower case.
#[derive(Debug, Drop)]
pub struct TagAttribute {
    pub name: Items<u8>,
    pub held: Held,
}

/// A start tag with its attributes, of which no two have the same name. Its name is in lower case.
#[derive(Debug, Drop)]
pub struct Tag {
    pub name: Items<u8>,
    pub attributes: Items<TagAttribute>,
}
