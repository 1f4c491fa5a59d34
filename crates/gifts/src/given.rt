//! What code gives, and what isn't seen of that.
use crate::tags::Tag;
use tp_base::Items;

/// What code may give each element. Names and values that are computed have no list here, since they may be all that a sheet asks for: so what a
/// script gives is as long as the script, and not as its sheet.
#[derive(Debug, Drop)]
pub enum Gift {
    /// These classes, each behind a blank but the first.
    Classes(Items<u8>),
    /// Any class.
    AnyClass,
    /// An attribute of this name in lower case, with this value.
    Attribute(Items<u8>, Items<u8>),
    /// An attribute of this name in lower case, with any value.
    AnyValue(Items<u8>),
    /// Any attribute whose name begins with `data-`, with any value.
    AnyData,
    /// Any attribute but a class and an id, with any value.
    AnyAttribute,
    /// A child that has this tag.
    Tag(Tag),
    /// A child of any name.
    AnyTag,
    /// Any element of the page, and what is in it, as a child.
    Moves,
}

/// Why an assumption is made.
#[derive(Clone, Copy, Debug, PartialEq, Eq)]
pub enum Kind {
    /// A file of the page isn't handed in.
    Source,
    /// A function is called that isn't known.
    Call,
    /// A member has a name that is computed.
    Computed,
    /// Code comes in.
    Code,
    /// Markup comes in.
    Markup,
    /// Elements are moved, copied or wrapped.
    Moved,
    /// Something is added to the texts of markup.
    Hole,
    /// An element may get an id.
    Id,
    /// It isn't sure what is meant.
    Unread,
}

/// What code does at a place.
#[derive(Debug, Drop)]
pub enum What {
    /// It gives something.
    Gives(Gift),
    /// It may give more than is seen.
    Assumes(Kind),
}

/// What code does, and the byte of its text at which it does so.
#[derive(Debug, Drop)]
pub struct Given {
    pub at: usize,
    pub what: What,
}

/// A call of a function, and the byte at which its name stands.
#[derive(Debug, Drop)]
pub struct Called {
    pub at: usize,
    pub name: Items<u8>,
}

/// How an attribute is set.
#[derive(Clone, Copy, Debug, PartialEq, Eq)]
pub enum Setter {
    /// By its own name, to a value as it is written.
    Attribute,
    /// By a property, which may make another value of it.
    Property,
}
