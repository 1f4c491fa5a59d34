//! For each open element the nearest ones outside that tags look for.
ghost use Rattle.std.specs.Prelude.{◌≡◌, ◌+◌, ◌<◌, ◌||◌, [], ◌∷◌, Some, None, List, length, if◌then◌else◌};
ghost use Rattle.html_table.specs.declared.elements.Kind.TheVariants as k;
ghost use Rattle.html_table.specs.Elements.{is, Element};
ghost use Rattle.html_table.specs.TreeTable as spec;
ghost use Rattle.html_table.specs.Outward.{nearest, holding, up_to_stop};

use crate::elements::Kind;
use crate::scopes::Scope;

/// What is nearest to some open element, from itself outward. Each number counts open elements, from the outermost on.
#[derive(Clone, Copy, Debug)]
pub(crate) struct Nearest {
    /// The elements outside of the paragraph that would be closed, if one would.
    pub(crate) paragraph: Option<usize>,
    /// The elements outside of the item of a list.
    pub(crate) item: Option<usize>,
    /// The elements outside of the term.
    pub(crate) term: Option<usize>,
    /// The elements up to the table, with it; none where there is no table.
    table: usize,
    /// The elements up to what holds a column.
    columns: usize,
    /// The elements up to what holds a row.
    rows: usize,
    /// The elements up to what holds a cell.
    cells: usize,
    /// The elements up to the table, cell or caption past which most end tags close nothing.
    cells_end: usize,
    /// Whether one of them is svg or math.
    pub(crate) foreign: bool,
}

// How many stay open where the nearest element of a kind is closed, given how many did before the last one was opened.
fn left_behind(
    sought: Kind,
    scope: Scope,
    kind: Kind,
    outside: usize,
    before: Option<usize>,
) -> Option<usize>
    ensures { result ≡ (if is kind sought then Some outside else (if spec.stops scope kind then None else before)) }
{
    if kind == sought {
        Some(outside)
    } else if scope.stops(kind) {
        None
    } else {
        before
    }
}

// Whether an element of the first kind is added in one of the second.
fn is_held_by(kind: Kind, holder: Kind) -> bool
    ensures { result ≡ spec.is_held_by kind holder }
{
    match kind {
        Kind::Column => matches!(holder, Kind::Table | Kind::Columns),
        Kind::Row => matches!(holder, Kind::Table | Kind::RowGroup),
        Kind::Cell => matches!(holder, Kind::Table | Kind::RowGroup | Kind::Row),
        _ => holder == Kind::Table,
    }
}

// How many there are up to the nearest that holds one of a kind, given how many there were before the last one was opened.
fn up_to_holder(sought: Kind, kind: Kind, outside: usize, before: usize) -> usize
    requires small { outside < 9223372036854775808 }
    ensures { result ≡ (if spec.is_held_by sought kind then outside + 1 else before) }
{
    if is_held_by(sought, kind) {
        outside + 1
    } else {
        before
    }
}

// How many there are up to the nearest past which nothing is closed, given how many there were before the last one was opened.
fn up_to_stop(scope: Scope, kind: Kind, outside: usize, before: usize) -> usize
    requires small { outside < 9223372036854775808 }
    ensures { result ≡ (if spec.stops scope kind then outside + 1 else before) }
{
    if scope.stops(kind) {
        outside + 1
    } else {
        before
    }
}

// Whether one of them is svg or math, given whether one was before the last one was opened.
fn is_foreign(kind: Kind, before: bool) -> bool
    ensures { result ≡ (is kind k.Foreign || before) }
{
    kind == Kind::Foreign || before
}

impl Nearest {
    /// Where nothing is open.
    #[tactic(auto, unfolding(crate::specs::Outward::nearest, crate::specs::TreeTable::behind, crate::specs::TreeTable::holder))]
    pub(crate) fn nothing() -> Nearest
        ensures { result ≡ nearest [] }
    {
        Nearest {
            paragraph: None,
            item: None,
            term: None,
            table: 0,
            columns: 0,
            rows: 0,
            cells: 0,
            cells_end: 0,
            foreign: false,
        }
    }

    /// Where one element more is open, inside of so many. Constant.
    pub(crate) fn with(self, kind: Kind, outside: usize) -> Nearest
        requires small { outside < 9223372036854775808 }
        ensures { (e : Element) (es : List Element) → e.kind ≡ kind → length es ≡ outside → self ≡ nearest es → result ≡ nearest (e ∷ es) }
    {
        Nearest {
            paragraph: left_behind(Kind::Paragraph, Scope::Walls, kind, outside, self.paragraph),
            item: left_behind(Kind::Item, Scope::Items, kind, outside, self.item),
            term: left_behind(Kind::Term, Scope::Terms, kind, outside, self.term),
            table: up_to_holder(Kind::Caption, kind, outside, self.table),
            columns: up_to_holder(Kind::Column, kind, outside, self.columns),
            rows: up_to_holder(Kind::Row, kind, outside, self.rows),
            cells: up_to_holder(Kind::Cell, kind, outside, self.cells),
            cells_end: up_to_stop(Scope::Cells, kind, outside, self.cells_end),
            foreign: is_foreign(kind, self.foreign),
        }
    }

    /// How many there are up to the nearest that holds one of the kind, with it; 0 where none does.
    pub(crate) fn holding(self, kind: Kind) -> usize
        ensures { result ≡ holding kind self }
    {
        match kind {
            Kind::Column => self.columns,
            Kind::Row => self.rows,
            Kind::Cell => self.cells,
            _ => self.table,
        }
    }

    /// How many there are up to the nearest past which the end tag of an element of the kind closes nothing; 0 where none is.
    pub(crate) fn stop_of_end(self, ended: Kind) -> usize
        ensures { (es : List Element) → self ≡ nearest es → result ≡ up_to_stop (spec.end_scope ended) es }
    {
        match Scope::of_end(ended) {
            Scope::Page => 0,
            Scope::Table => self.table,
            _ => self.cells_end,
        }
    }
}
