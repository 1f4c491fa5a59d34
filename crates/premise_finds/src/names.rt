//! The names of what is found.
ghost use Rattle.std.specs.Prelude.{◌≡◌};
ghost use Rattle.premise_finds.specs.NameTexts.{text_of, name_of};

/// What a browser does more with than the model. The names of a page stand first, then those of a sheet.
#[derive(Clone, Copy, Debug, PartialEq, Eq)]
pub enum Name {
    Quirks,
    Xhtml,
    CodeInAnAttribute,
    CodeInAnAddress,
    ScriptHere,
    SheetHere,
    OtherDocument,
    NoScript,
    Template,
    OwnElement,
    TypedInto,
    Reference,
    RawInSvg,
    HtmlInSvg,
    TagAcrossAnother,
    LeftOpen,
    InItself,
    InATable,
    InASelect,
    ItemInABlock,
    SelectedContent,
    ScriptInAScript,
    FormLeftOpen,
    CommentMark,
    Escape,
    Address,
    NestedRule,
    Import,
    Layer,
    UnknownToSome,
    ValueAsked,
}

// All of them, in their order.
const ALL: [Name; 31] = [
    Name::Quirks,
    Name::Xhtml,
    Name::CodeInAnAttribute,
    Name::CodeInAnAddress,
    Name::ScriptHere,
    Name::SheetHere,
    Name::OtherDocument,
    Name::NoScript,
    Name::Template,
    Name::OwnElement,
    Name::TypedInto,
    Name::Reference,
    Name::RawInSvg,
    Name::HtmlInSvg,
    Name::TagAcrossAnother,
    Name::LeftOpen,
    Name::InItself,
    Name::InATable,
    Name::InASelect,
    Name::ItemInABlock,
    Name::SelectedContent,
    Name::ScriptInAScript,
    Name::FormLeftOpen,
    Name::CommentMark,
    Name::Escape,
    Name::Address,
    Name::NestedRule,
    Name::Import,
    Name::Layer,
    Name::UnknownToSome,
    Name::ValueAsked,
];

impl Name {
    /// The name as it is written.
    pub fn text(self) -> &'static [u8]
        ensures { result.now ≡ text_of self }
    {
        match self {
            Name::Quirks => b"quirks",
            Name::Xhtml => b"xhtml",
            Name::CodeInAnAttribute => b"code in an attribute",
            Name::CodeInAnAddress => b"code in an address",
            Name::ScriptHere => b"script here",
            Name::SheetHere => b"sheet here",
            Name::OtherDocument => b"other document",
            Name::NoScript => b"no script",
            Name::Template => b"template",
            Name::OwnElement => b"own element",
            Name::TypedInto => b"typed into",
            Name::Reference => b"reference",
            Name::RawInSvg => b"raw in svg",
            Name::HtmlInSvg => b"html in svg",
            Name::TagAcrossAnother => b"tag across another",
            Name::LeftOpen => b"left open",
            Name::InItself => b"in itself",
            Name::InATable => b"in a table",
            Name::InASelect => b"in a select",
            Name::ItemInABlock => b"item in a block",
            Name::SelectedContent => b"selected content",
            Name::ScriptInAScript => b"script in a script",
            Name::FormLeftOpen => b"form left open",
            Name::CommentMark => b"comment mark",
            Name::Escape => b"escape",
            Name::Address => b"address",
            Name::NestedRule => b"nested rule",
            Name::Import => b"import",
            Name::Layer => b"layer",
            Name::UnknownToSome => b"unknown to some",
            Name::ValueAsked => b"value asked",
        }
    }
    /// The name that is written so, if one is. Constant.
    #[tactic(auto, using(crate::proofs::NameLists::all_are))]
    pub fn of(text: &[u8]) -> Option<Name>
        ensures { result ≡ name_of text.now }
    {
        let mut left: &[Name] = &ALL;
        'names: while let [first, others @ ..] = left {
            if first.text() == text {
                return Some(*first);
            }
            left = others;
        }
        None
    }
}
