//! What stands at a token.

/// How a member or a name is written.
#[derive(Clone, Copy, Debug, PartialEq, Eq)]
pub enum Write {
    /// To the value behind the mark, which is the next token, if it is written at all.
    Whole,
    /// To something else: what is made of the old value, or what a pattern or a loop hands over.
    Made,
}

/// What is done with a member or with a name.
#[derive(Clone, Copy, Debug, PartialEq, Eq)]
pub enum Use {
    /// It is called. The next token is the bracket of the arguments.
    Called,
    /// It is called with a template, which is the next token.
    Tagged,
    Written(Write),
    /// Anything else: it is read, handed on, or asked for a member.
    Read,
}

/// What stands at a token.
#[derive(Clone, Copy, Debug, PartialEq, Eq)]
pub enum Place {
    /// The name of a member, behind a dot.
    Member(Use),
    /// A name that isn't behind a dot.
    Name(Use),
    /// The name of a function or of a class, where that is written.
    Declared,
    /// A name or a text before a `:`: a key of an object or of a pattern, a label, or a value of a choice.
    Key,
    /// A word of the language.
    Word,
    /// The `[` of a member whose name is computed. The use is what is done with the member; the token behind the bracket's end is the next one.
    Index(Use),
    /// A string, or a part of a template.
    Text,
    Other,
}
