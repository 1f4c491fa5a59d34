//! Statements with sharper calls, from short lists.
use jq_stmts::{
    Call, Calls, Chain, Chains, ExactStmt, Root, Selectors, SharedCompounds, Sharp, SharpKind,
    Sharps, Stmt,
};
use sel_text::{Atoms, Compound, Selector};
use std::alloc::Global;
use test_building::{NodeRow, set_of, tree_of};
use tp_base::{Atom, NoMemory, Place};
use tree_sem::{Action, Tree, TreeFault};

pub const A: u32 = 1;

pub const B: u32 = 2;

pub const C: u32 = 3;

pub const D: u32 = 4;

/// The root of a chain, or a call, with the atom of its one compound or selector.
#[derive(Clone, Copy)]
pub enum Piece {
    Matched(u32),
    This,
    Find(u32),
    Children,
    ChildrenOf(u32),
    Add(u32),
    End,
    Closest(u32),
    Siblings,
    SiblingsOf(u32),
    First,
}

// The nodes are, by their numbers,
//     0 - 1 .a - 2 .b - 3 .c
//                       4 .a.b
//                5 .c - 6
//         7 .b - 8 .a - 9 .c
//                10 .c
//         11 .d
static NODES: [NodeRow; 11] = [
    (&[], &[A]),
    (&[0], &[B]),
    (&[0, 0], &[C]),
    (&[0, 0], &[A, B]),
    (&[0], &[C]),
    (&[0, 1], &[]),
    (&[], &[B]),
    (&[1], &[A]),
    (&[1, 0], &[C]),
    (&[1], &[C]),
    (&[], &[D]),
];

/// A page of twelve nodes.
pub fn page(alloc: Global) -> Result<Tree, TreeFault> {
    tree_of(alloc, &[], &NODES)
}

fn compound(alloc: Global, atom: u32) -> Result<Compound, NoMemory> {
    let atoms = Atoms::new(Vec::from_slice(alloc, &[Atom(atom)])?);
    Ok(Compound { atoms })
}

fn no_compounds(alloc: Global) -> Result<SharedCompounds, NoMemory> {
    SharedCompounds::new(Vec::new(alloc))
}

fn one_compound(alloc: Global, compound: Compound) -> Result<SharedCompounds, NoMemory> {
    let mut items = Vec::new(alloc);
    items.push(compound)?;
    SharedCompounds::new(items)
}

fn of_atom(alloc: Global, atom: u32) -> Result<SharedCompounds, NoMemory> {
    one_compound(alloc, compound(alloc, atom)?)
}

// A compound without atoms, which fits each node.
fn any(alloc: Global) -> Result<SharedCompounds, NoMemory> {
    let atoms = Atoms::new(Vec::new(alloc));
    one_compound(alloc, Compound { atoms })
}

fn selectors(alloc: Global, atom: u32) -> Result<Selectors, NoMemory> {
    let mut items = Vec::new(alloc);
    items.push(Selector::of_one(alloc, compound(alloc, atom)?)?)?;
    Selectors::new(items)
}

fn call(alloc: Global, piece: Piece) -> Result<Call, NoMemory> {
    match piece {
        Piece::Find(atom) => Ok(Call::Find(of_atom(alloc, atom)?)),
        Piece::Children => Ok(Call::Children(no_compounds(alloc)?)),
        Piece::ChildrenOf(atom) => Ok(Call::Children(of_atom(alloc, atom)?)),
        Piece::Add(atom) => Ok(Call::Add(selectors(alloc, atom)?)),
        Piece::Closest(atom) => Ok(Call::Around(of_atom(alloc, atom)?)),
        Piece::Siblings => Ok(Call::Near(no_compounds(alloc)?)),
        Piece::SiblingsOf(atom) => Ok(Call::Near(of_atom(alloc, atom)?)),
        Piece::First => Ok(Call::Filter(any(alloc)?)),
        Piece::End | Piece::Matched(_) | Piece::This => Ok(Call::End),
    }
}

fn calls(alloc: Global, pieces: &[Piece]) -> Result<Calls, NoMemory> {
    let mut items = Vec::new(alloc);
    for piece in pieces {
        items.push(call(alloc, *piece)?)?;
    }
    Ok(Calls::new(items))
}

fn root(alloc: Global, piece: Piece) -> Result<Root, NoMemory> {
    match piece {
        Piece::Matched(atom) => Ok(Root::List(selectors(alloc, atom)?)),
        _ => Ok(Root::This),
    }
}

fn chain(alloc: Global, first: Piece, later: &[Piece]) -> Result<Chain, NoMemory> {
    let root = root(alloc, first)?;
    let calls = calls(alloc, later)?;
    Ok(Chain { root, calls })
}

fn chain_of(alloc: Global, pieces: &[Piece]) -> Result<Chain, NoMemory> {
    match pieces.split_first() {
        None => chain(alloc, Piece::This, &[]),
        Some((first, later)) => chain(alloc, *first, later),
    }
}

// One handler, where it has pieces.
fn chains(alloc: Global, handler: &[Piece]) -> Result<Chains, NoMemory> {
    let mut items = Vec::new(alloc);
    if !handler.is_empty() {
        items.push(chain_of(alloc, handler)?)?;
    }
    Ok(Chains::new(items))
}

fn kind_of(piece: Piece) -> Option<SharpKind> {
    match piece {
        Piece::Closest(_) => Some(SharpKind::Closest),
        Piece::Siblings | Piece::SiblingsOf(_) => Some(SharpKind::Siblings),
        Piece::First => Some(SharpKind::First),
        _ => None,
    }
}

// The marks of a chain more; its calls stand behind the root.
fn add_marks(
    marks: &mut Vec<Sharp>,
    handler: Option<u32>,
    pieces: &[Piece],
) -> Result<(), NoMemory> {
    let mut call: u32 = 0;
    for piece in pieces {
        if let Some(kind) = kind_of(*piece) {
            let call = call.saturating_sub(1);
            marks.push(Sharp {
                handler,
                call,
                kind,
            })?;
        }
        call = call.saturating_add(1);
    }
    Ok(())
}

fn marks(alloc: Global, handler: &[Piece], pieces: &[Piece]) -> Result<Sharps, NoMemory> {
    let mut marks = Vec::new(alloc);
    add_marks(&mut marks, Some(0), handler)?;
    add_marks(&mut marks, None, pieces)?;
    Ok(Sharps::new(marks))
}

fn wide(alloc: Global, handler: &[Piece], pieces: &[Piece]) -> Result<Stmt, NoMemory> {
    let handlers = chains(alloc, handler)?;
    let chain = chain_of(alloc, pieces)?;
    let action = Action::Classes(set_of(alloc, &[D])?);
    Ok(Stmt {
        place: Place { line: 1, column: 1 },
        handlers,
        chain,
        action,
    })
}

/// A statement with this handler, or none where it has no pieces, and this chain. It adds a class.
pub fn statement(
    alloc: Global,
    handler: &[Piece],
    pieces: &[Piece],
) -> Result<ExactStmt, NoMemory> {
    let wide = wide(alloc, handler, pieces)?;
    let sharp = marks(alloc, handler, pieces)?;
    Ok(ExactStmt { wide, sharp })
}
