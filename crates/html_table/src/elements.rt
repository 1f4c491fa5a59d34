//! The kinds of elements that matter for the tree, by the elements' names.
ghost use Rattle.std.specs.Prelude.{◌≡◌, map};
ghost use Rattle.html_tokens.specs.Bytes.{lowered};
ghost use Rattle.html_table.specs.Elements as spec;
ghost use Rattle.html_table.specs.Views.{element_of};

use html_tokens::is_same_name;

/// What an element is to the tree. Names that no rule speaks of are `Other`.
#[derive(Clone, Copy, Debug, PartialEq, Eq)]
pub enum Kind {
    Html,
    Head,
    Body,
    /// Stands in the head, and holds nothing.
    HeadVoid,
    /// Stands in the head, and its text is passed over.
    HeadRaw,
    /// Holds nothing.
    Void,
    /// Holds nothing, and ends a paragraph.
    BlockVoid,
    /// Ends a paragraph.
    Block,
    Paragraph,
    List,
    Item,
    Terms,
    Term,
    Choice,
    Choices,
    Table,
    Caption,
    Columns,
    Column,
    RowGroup,
    Row,
    Cell,
    /// What is inside closes nothing that is outside.
    Control,
    /// It may close itself, as may all inside it.
    Foreign,
    Other,
}

// The names that stand for something when a tree is built; any other one is `Other`.
const KINDS: [(&[u8], Kind); 71] = [
    (b"html", Kind::Html),
    (b"head", Kind::Head),
    (b"body", Kind::Body),
    (b"base", Kind::HeadVoid),
    (b"link", Kind::HeadVoid),
    (b"meta", Kind::HeadVoid),
    (b"title", Kind::HeadRaw),
    (b"style", Kind::HeadRaw),
    (b"script", Kind::HeadRaw),
    (b"noscript", Kind::HeadRaw),
    (b"area", Kind::Void),
    (b"br", Kind::Void),
    (b"embed", Kind::Void),
    (b"img", Kind::Void),
    (b"input", Kind::Void),
    (b"source", Kind::Void),
    (b"track", Kind::Void),
    (b"wbr", Kind::Void),
    (b"hr", Kind::BlockVoid),
    (b"address", Kind::Block),
    (b"article", Kind::Block),
    (b"aside", Kind::Block),
    (b"blockquote", Kind::Block),
    (b"center", Kind::Block),
    (b"details", Kind::Block),
    (b"dialog", Kind::Block),
    (b"dir", Kind::Block),
    (b"div", Kind::Block),
    (b"fieldset", Kind::Block),
    (b"figcaption", Kind::Block),
    (b"figure", Kind::Block),
    (b"footer", Kind::Block),
    (b"form", Kind::Block),
    (b"h1", Kind::Block),
    (b"h2", Kind::Block),
    (b"h3", Kind::Block),
    (b"h4", Kind::Block),
    (b"h5", Kind::Block),
    (b"h6", Kind::Block),
    (b"header", Kind::Block),
    (b"hgroup", Kind::Block),
    (b"main", Kind::Block),
    (b"nav", Kind::Block),
    (b"pre", Kind::Block),
    (b"search", Kind::Block),
    (b"section", Kind::Block),
    (b"summary", Kind::Block),
    (b"p", Kind::Paragraph),
    (b"ul", Kind::List),
    (b"ol", Kind::List),
    (b"menu", Kind::List),
    (b"li", Kind::Item),
    (b"dl", Kind::Terms),
    (b"dt", Kind::Term),
    (b"dd", Kind::Term),
    (b"option", Kind::Choice),
    (b"optgroup", Kind::Choices),
    (b"table", Kind::Table),
    (b"caption", Kind::Caption),
    (b"colgroup", Kind::Columns),
    (b"col", Kind::Column),
    (b"tbody", Kind::RowGroup),
    (b"thead", Kind::RowGroup),
    (b"tfoot", Kind::RowGroup),
    (b"tr", Kind::Row),
    (b"td", Kind::Cell),
    (b"th", Kind::Cell),
    (b"button", Kind::Control),
    (b"object", Kind::Control),
    (b"svg", Kind::Foreign),
    (b"math", Kind::Foreign),
];

/// An element of a tag, or one that is open: its kind, and its name as it is written.
#[derive(Clone, Copy)]
pub struct Element<'a> {
    pub kind: Kind,
    pub name: &'a [u8],
}

impl<'a> Element<'a> {
    /// The one of a name.
    pub fn new(name: &'a [u8]) -> Self
        ensures { element_of result ≡ spec.element (lowered name.now) }
    {
        Element {
            kind: kind_of(name),
            name,
        }
    }
}

fn lookup(table: &[(&[u8], Kind)], name: &[u8]) -> Kind
    ensures { result ≡ spec.lookup (map (λ k. (lowered k.0.now, k.1)) table.now) (lowered name.now) }
{
    let mut left = table;
    'names: while let [first, others @ ..] = left {
        if is_same_name(first.0, name) {
            return first.1;
        }
        left = others;
    }
    Kind::Other
}

// The kind of a name, without regard to ASCII case.
#[tactic(auto, unfolding(crate::specs::Elements::kind_of), using(crate::proofs::ElementNames::same_kinds))]
fn kind_of(name: &[u8]) -> Kind
    ensures { result ≡ spec.kind_of (lowered name.now) }
{
    lookup(&KINDS, name)
}

impl Kind {
    /// html, head and body, of which a page has one each.
    pub fn is_root(self) -> bool
        ensures { result ≡ spec.is_root self }
    {
        matches!(self, Kind::Html | Kind::Head | Kind::Body)
    }

    /// Is added to the head as long as the body has not begun.
    pub fn is_in_head(self) -> bool
        ensures { result ≡ spec.is_in_head self }
    {
        matches!(self, Kind::HeadVoid | Kind::HeadRaw)
    }

    /// Holds nothing.
    pub fn is_void(self) -> bool
        ensures { result ≡ spec.is_void self }
    {
        matches!(
            self,
            Kind::HeadVoid | Kind::Void | Kind::BlockVoid | Kind::Column
        )
    }

    pub(crate) fn ends_paragraph(self) -> bool
        ensures { result ≡ spec.ends_paragraph self }
    {
        matches!(
            self,
            Kind::BlockVoid | Kind::Block | Kind::Paragraph | Kind::List | Kind::Terms | Kind::Table
        )
    }

    /// What is inside it closes no paragraph, item or term outside it.
    pub(crate) fn is_wall(self) -> bool
        ensures { result ≡ spec.is_wall self }
    {
        matches!(
            self,
            Kind::Table | Kind::Cell | Kind::Caption | Kind::Control
        )
    }

    /// Is open within a table only.
    pub(crate) fn is_table_part(self) -> bool
        ensures { result ≡ spec.is_table_part self }
    {
        matches!(
            self,
            Kind::Caption | Kind::Columns | Kind::RowGroup | Kind::Row | Kind::Cell
        )
    }
}
