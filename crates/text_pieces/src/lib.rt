//! A text in pieces: its letters, and the holes that template languages put values in.
#![tactic(auto)]

mod holes;
mod pieces;

pub use pieces::{Piece, pieces_of, push_operand, push_pieces};
