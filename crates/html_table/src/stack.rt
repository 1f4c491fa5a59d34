//! The stack of open elements, each with what is cached of those outside.
ghost use Rattle.std.specs.Prelude.{◌≡◌, ℕ, List, ◌==◌, ◌-◌, ◌<◌, ◌≤◌, [], ◌∷◌, ◌++◌, length, take, map, reverse, option_map, slice_get, IfOk, OnOk};
ghost use Rattle.html_tokens.specs.Bytes.{lowered};
ghost use Rattle.html_tokens.specs.Names.{is_raw};
ghost use Rattle.html_table.specs.Elements.{element, kind_of};
ghost use Rattle.html_table.specs.TreeTable as spec;
ghost use Rattle.html_table.specs.Outward.{outward, nearest, first_kind, up_to_name, behind_place};
ghost use Rattle.html_table.specs.Views.{element_of};

use crate::elements::{Element, Kind};
use crate::name_places::NamePlaces;
use crate::nearest::Nearest;
use html_tokens::is_raw;
use std::alloc::Global;
use std::marker::Model;
use tp_base::NoMemory;

// An element that is open, and what is nearest to it.
#[derive(Clone, Copy)]
struct Open<'a> {
    element: Element<'a>,
    nearest: Nearest,
    /// The number of its name.
    name: usize,
    /// The place of the next one outside of it that has its name.
    hides: usize,
}

/// The open elements, the innermost last. A contract sees the list of them.
#[derive(Drop)]
pub struct OpenElements<'a> {
    items: Vec<Open<'a>>,
    names: NamePlaces,
}

impl<'a> Model for OpenElements<'a> {
    ghost use Rattle.std.specs.Prelude.{List, map};
    ghost use Rattle.html_table.specs.Elements.{Element};
    ghost use Rattle.html_table.specs.Outward.{opened_element, IsStack};

    ghost Value = { List Element };

    ghost view = { λ o. map opened_element o.items.items };

    ghost invariant = { λ o. IsStack o.names o.items.items };
}

// How many stay open where the element at a place is closed, unless there is none, or the search stops further in.
fn behind_place(place: usize, stop: usize) -> Option<usize>
    ensures { result ≡ behind_place place stop }
{
    if place == 0 || place < stop {
        None
    } else {
        Some(place - 1)
    }
}

// The element of a name that isn't known, and whether it is raw. One that holds nothing isn't.
fn new_element(name: &[u8]) -> (Element<'_>, bool)
    ensures element { element_of result.0 ≡ element (lowered name.now) }
    ensures raw { result.1 ≡ is_raw (lowered name.now) }
{
    let element = Element::new(name);
    if element.kind.is_void() {
        (element, false)
    } else {
        (element, is_raw(name))
    }
}

impl<'a> OpenElements<'a> {
    /// An empty stack.
    pub fn new(alloc: Global) -> Self
        ensures { result ≡ [] }
    {
        OpenElements {
            items: Vec::new(alloc),
            names: NamePlaces::new(alloc),
        }
    }

    /// What they take their memory from.
    pub fn allocator(&self) -> Global {
        *self.items.allocator()
    }

    /// How many are open.
    pub fn len(&self) -> usize
        ensures gives { result ≡ length self.now }
        ensures small { length self.now < 9223372036854775808 }
    {
        self.items.len()
    }

    /// Whether none is.
    pub fn is_empty(&self) -> bool
        ensures { result ≡ (length self.now == 0) }
    {
        self.items.is_empty()
    }

    /// The element of a name, and whether it is raw. Linear in the name.
    pub fn element<'n>(&self, name: &'n [u8]) -> (Element<'n>, bool)
        ensures element { element_of result.0 ≡ element (lowered name.now) }
        ensures raw { result.1 ≡ is_raw (lowered name.now) }
    {
        match self.names.kind(name) {
            Some((kind, is_raw)) => (Element { kind, name }, is_raw),
            None => new_element(name),
        }
    }

    /// What is nearest to the innermost of the first so many. Constant.
    pub(crate) fn nearest(&self, left: usize) -> Nearest
        requires within { left ≤ length self.now }
        ensures { result ≡ nearest (outward left self.now) }
    {
        if left == 0 {
            return Nearest::nothing();
        }
        self.items[left - 1].nearest
    }

    /// The kind of the innermost of the first so many.
    pub(crate) fn kind(&self, left: usize) -> Option<Kind>
        requires within { left ≤ length self.now }
        ensures { result ≡ first_kind (outward left self.now) }
    {
        if left == 0 {
            return None;
        }
        Some(self.items[left - 1].element.kind)
    }

    /// One of them, counted from the outermost. Constant.
    pub fn get(&self, index: usize) -> Option<Element<'a>>
        ensures { option_map element_of result ≡ slice_get self.now index }
    {
        if index >= self.len() {
            return None;
        }
        Some(self.items[index].element)
    }

    /// The kind of the outermost.
    pub(crate) fn outermost(&self) -> Option<Kind>
        ensures { result ≡ first_kind self.now }
    {
        match self.items.first() {
            None => None,
            Some(first) => Some(first.element.kind),
        }
    }

    /// The kind of elements of a name, and how many are open up to the innermost of it; 0 where none is. Linear in the name, on
    /// average.
    pub fn ended(&self, name: &[u8]) -> Result<(Kind, usize), NoMemory>
        ensures kind { IfOk result (λ r. r.0 ≡ kind_of (lowered name.now)) }
        ensures place { IfOk result (λ r. r.1 ≡ up_to_name (lowered name.now) (reverse self.now)) }
    {
        let found = self.names.get(name)?;
        Ok(found)
    }

    /// How many stay open where the end tag of an element of this kind closes the innermost of its name, if it closes one. So many
    /// are open up to that one. Constant.
    pub(crate) fn behind_end(&self, kind: Kind, place: usize) -> Option<usize>
        ensures { (q : List ℕ) → place ≡ up_to_name q (reverse self.now) → result ≡ option_map length (spec.behind (spec.has_name q) (spec.end_scope kind) (reverse self.now)) }
    {
        let stop = self.nearest(self.items.len()).stop_of_end(kind);
        behind_place(place, stop)
    }

    /// Opens one more. Linear in its name, on average.
    pub fn push(&mut self, element: Element<'a>) -> Result<(), NoMemory>
        ensures { OnOk result (self.new ≡ self.old ++ element_of element.entry ∷ []) }
    {
        let outside = self.items.len();
        let nearest = self.nearest(outside).with(element.kind, outside);
        let name = self.names.enter(element.name)?;
        let hides = self.names.at(name);
        self.items.push(Open {
            element,
            nearest,
            name,
            hides,
        })?;
        self.names.put(name, outside + 1);
        Ok(())
    }

    // Closes the innermost. Constant.
    fn close(&mut self)
        ensures { self.new ≡ take (length self.old - 1) self.old }
    {
        if let Some(last) = self.items.pop() {
            self.names.put(last.name, last.hides);
        }
    }

    /// Closes all but the first so many. Linear in those that are closed.
    pub fn truncate(&mut self, left: usize)
        ensures { self.new ≡ take left self.old }
    {
        'closing: while self.len() > left {
            self.close();
        }
    }
}
