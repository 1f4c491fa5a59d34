//! What is written: statements and assumptions, each with the place that it comes from.
use tp_base::Items;

/// A byte of a file: the page is the first one, and behind it are the scripts in their order.
#[derive(Clone, Copy, Debug, PartialEq, Eq)]
pub struct Origin {
    pub file: usize,
    pub at: usize,
}

/// What a statement does with each element.
#[derive(Debug, Drop)]
pub enum Call {
    /// Its classes get these words.
    Classes(Items<u8>),
    /// The attribute of a name gets a value.
    Attribute(Items<u8>, Items<u8>),
    /// It gets a child, by the text of its tag.
    Tag(Items<u8>),
}

/// Why an assumption is made.
#[derive(Clone, Copy, Debug, PartialEq, Eq)]
pub enum Kind {
    /// A file of the page isn't handed in.
    Source,
    /// A function is called that isn't known.
    Call,
    /// A member has a name that is computed.
    Computed,
    /// Code comes in.
    Code,
    /// Markup comes in.
    Markup,
    /// Elements are moved, copied or wrapped.
    Moved,
    /// Something is added to the texts of markup.
    Hole,
    /// An element may get an id.
    Id,
    /// It isn't sure what is meant.
    Unread,
}

/// What a line is.
#[derive(Clone, Copy, Debug, PartialEq, Eq)]
pub enum Form {
    /// An assumption.
    Assumed(Kind),
    /// A statement. It says whether all names are given that are asked for.
    Given(bool),
}

/// A line, before it is written. The key of a statement is its call, and that of an assumption tells it from others: a line whose key has come isn't
/// written.
#[derive(Debug, Drop)]
pub struct Entry {
    pub form: Form,
    pub key: Items<u8>,
    pub origin: Origin,
}
