//! A text in pieces.
ghost use Rattle.std.specs.Prelude.{◌≡◌, ◌++◌, ◌∷◌, [], OnOk, IfOk};
ghost use Rattle.text_pieces.specs.declared.pieces.Piece.TheVariants.{Hole as hole_of};
ghost use Rattle.text_pieces.specs.Pieces as spec;

use crate::holes::Closers;
use std::alloc::Global;
use std::mem::replace;
use tp_base::{Items, NoMemory};

/// A piece of a text.
#[derive(Debug, Drop)]
pub enum Piece {
    /// Letters as they are.
    Letters(Items<u8>),
    /// What isn't known here: an operand, with no bytes, or what a template language puts a value in, with its bytes as they are written.
    Hole(Items<u8>),
}

#[tactic(auto, unfolding(crate::specs::Pieces::piece_of))]
fn push_letters(pieces: &mut Vec<Piece>, letters: Vec<u8>) -> Result<(), NoMemory>
    ensures { OnOk result (pieces.new.items ≡ pieces.old.items ++ spec.piece_of letters.items) }
{
    if !letters.is_empty() {
        pieces.push(Piece::Letters(Items::new(letters)))?;
    }
    Ok(())
}

fn push_hole(pieces: &mut Vec<Piece>, bytes: &[u8]) -> Result<(), NoMemory>
    ensures { OnOk result (pieces.new.items ≡ pieces.old.items ++ hole_of bytes.now ∷ []) }
{
    let bytes = Vec::from_slice(*pieces.allocator(), bytes)?;
    pieces.push(Piece::Hole(Items::new(bytes)))?;
    Ok(())
}

fn push_both(pieces: &mut Vec<Piece>, letters: Vec<u8>, hole: &[u8]) -> Result<(), NoMemory>
    ensures { OnOk result (pieces.new.items ≡ pieces.old.items ++ (spec.piece_of letters.items ++ hole_of hole.now ∷ [])) }
{
    push_letters(pieces, letters)?;
    push_hole(pieces, hole)
}

/// Adds an operand. Constant on average.
pub fn push_operand(pieces: &mut Vec<Piece>) -> Result<(), NoMemory>
    ensures { OnOk result (pieces.new.items ≡ pieces.old.items ++ hole_of [] ∷ []) }
{
    push_hole(pieces, &[])
}

/// Adds the pieces of a text. Linear in it.
#[tactic(auto, using(crate::proofs::PieceSteps::a_letter, crate::proofs::PieceSteps::a_hole, crate::proofs::PieceSteps::last_letters, crate::proofs::HoleSteps::left_behind, crate::proofs::HoleSteps::left_past, crate::proofs::HoleSteps::left_later))]
pub fn push_pieces(pieces: &mut Vec<Piece>, text: &[u8]) -> Result<(), NoMemory>
    ensures { OnOk result (pieces.new.items ≡ pieces.old.items ++ spec.pieces_of text.now) }
{
    let alloc = *pieces.allocator();
    let mut closers = Closers::all();
    let mut letters = Vec::new(alloc);
    let mut rest = text;
    'bytes: while let Some((first, behind)) = rest.split_first() {
        let len = closers.hole_len(rest);
        if len == 0 {
            letters.push(*first)?;
            rest = behind;
        } else {
            let (hole, others) = rest.split_at(len);
            let full = replace(&mut letters, Vec::new(alloc));
            push_both(pieces, full, hole)?;
            rest = others;
        }
    }
    push_letters(pieces, letters)
}

/// The pieces of a text: its letters, and the holes that a template language has in it. Linear in it.
pub fn pieces_of(alloc: Global, text: &[u8]) -> Result<Items<Piece>, NoMemory>
    ensures { IfOk result (λ v. v ≡ spec.pieces_of text.now) }
{
    let mut pieces = Vec::new(alloc);
    push_pieces(&mut pieces, text)?;
    Ok(Items::new(pieces))
}
