//! The types of a proof that the root of a page gets an atom.
use tp_base::{Atom, ClassSet, Items, Path};

/// The child of a `down` link: a child of the page by its number, or the child that a spawn rule adds, with its entry.
#[derive(Clone, Copy, Debug, PartialEq, Eq)]
pub enum Below {
    Real(u32),
    Grown(u64, u32),
}

/// The reason why a node has an atom: from the start, or by a rule of this number.
#[derive(Clone, Copy, Debug, PartialEq, Eq)]
pub enum Reason {
    Start,
    Local(u64),
    Up(u64),
    Down(u64, Below),
}

/// One atom of a node, with its reason.
#[derive(Clone, Copy, Debug, PartialEq, Eq)]
pub struct ProofItem {
    pub atom: Atom,
    pub reason: Reason,
}

/// Items at one node, in their order. A contract sees the list of them.
pub type ProofItems = Items<ProofItem>;

/// An entry: what a node of a kind gets below a parent that has the atoms of `parent`, and in how many steps. It may be used
/// many times.
#[derive(Drop)]
pub struct Entry {
    pub kind: u32,
    pub parent: ClassSet,
    pub items: ProofItems,
    pub steps: u64,
}

/// Entries, by their numbers. A contract sees the list of them.
pub type Entries = Items<Entry>;

/// One atom of a node of the page.
#[derive(Drop)]
pub struct PageItem {
    pub at: Path,
    pub item: ProofItem,
}

/// Items of the page, in their order. A contract sees the list of them.
pub type PageItems = Items<PageItem>;

/// A proof. An entry names only entries of lower number.
#[derive(Drop)]
pub struct Proof {
    pub entries: Entries,
    pub page: PageItems,
}
