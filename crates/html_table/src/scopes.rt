//! Scopes: how far outward a tag looks for the element that it closes.
ghost use Rattle.std.specs.Prelude.{◌≡◌};
ghost use Rattle.html_table.specs.TreeTable as spec;

use crate::elements::Kind;

/// The elements past which nothing is closed.
#[derive(Clone, Copy, Debug, PartialEq, Eq)]
pub enum Scope {
    /// Tables, their cells and captions, buttons and objects.
    Walls,
    /// These, and lists.
    Items,
    /// The walls, and lists of terms.
    Terms,
    /// Tables.
    Table,
    /// Tables, their cells and captions.
    Cells,
    /// None.
    Page,
}

impl Scope {
    pub(crate) fn stops(self, kind: Kind) -> bool
        ensures { result ≡ spec.stops self kind }
    {
        match self {
            Scope::Walls => kind.is_wall(),
            Scope::Items => kind == Kind::List || kind.is_wall(),
            Scope::Terms => kind == Kind::Terms || kind.is_wall(),
            Scope::Table => kind == Kind::Table,
            Scope::Cells => matches!(kind, Kind::Table | Kind::Cell | Kind::Caption),
            Scope::Page => false,
        }
    }

    /// How far the end tag of an element of this kind looks.
    pub(crate) fn of_end(kind: Kind) -> Scope
        ensures { result ≡ spec.end_scope kind }
    {
        if kind == Kind::Table {
            Scope::Page
        } else if kind.is_table_part() {
            Scope::Table
        } else {
            Scope::Cells
        }
    }
}
