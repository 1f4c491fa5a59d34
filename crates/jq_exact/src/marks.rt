//! The join of statements with the marks of their sharp calls, and its inverse.
ghost use Rattle.std.specs.Prelude.{◌≡◌, List, [], ◌∷◌, IfOk};
ghost use Rattle.std.specs.List.{list_any};
ghost use Rattle.std.specs.Vec.Iter.{into_iter_items};
ghost use Rattle.jq_stmts.specs.declared.sharp.Sharp.{Sharp};
ghost use Rattle.jq_stmts.specs.SharpViews.{exacts_of};
ghost use Rattle.jq_exact.specs.Scripts.{exact_in, has_marks};

use jq_stmts::{ExactStmt, Sharps, Stmt};
use std::alloc::Global;
use std::vec::IntoIter;
use tp_base::NoMemory;

/// The statements of a script as they are judged, and the marks of the sharp calls of each; those behind the last marks have none.
#[derive(Drop)]
pub struct Script {
    pub stmts: Vec<Stmt>,
    pub sharp: Vec<Sharps>,
}

/// Parts statements from their marks. Linear in them.
#[tactic(auto, using(crate::proofs::MarkLemmas::one_parted, crate::proofs::MarkLemmas::all_parted))]
pub fn parted(alloc: Global, exact: Vec<ExactStmt>) -> Result<Script, NoMemory>
    ensures { IfOk result (λ s. exact_in s ≡ exacts_of exact.items) }
{
    let mut stmts = Vec::new(alloc);
    let mut sharp = Vec::new(alloc);
    for statement in exact {
        stmts.push(statement.wide)?;
        sharp.push(statement.sharp)?;
    }
    Ok(Script { stmts, sharp })
}

/// Puts the marks to their statements again. Linear in them.
#[tactic(auto, using(crate::proofs::MarkLemmas::none_joined))]
pub fn joined(alloc: Global, script: Script) -> Result<Vec<ExactStmt>, NoMemory>
    ensures { IfOk result (λ v. exacts_of v.items ≡ exact_in script) }
{
    let mut exact = Vec::new(alloc);
    let mut marks = script.sharp.into_iter();
    for wide in script.stmts {
        let sharp = next_marks(alloc, &mut marks);
        exact.push(ExactStmt { wide, sharp })?;
    }
    Ok(exact)
}

// The next marks, or none where all were given out.
fn next_marks(alloc: Global, marks: &mut IntoIter<Sharps>) -> Sharps
    ensures some { (m : List Sharp) (later : List (List Sharp)) → into_iter_items marks.old ≡ m ∷ later → result ≡ m }
    ensures later { (m : List Sharp) (later : List (List Sharp)) → into_iter_items marks.old ≡ m ∷ later → into_iter_items marks.new ≡ later }
    ensures none { into_iter_items marks.old ≡ [] → result ≡ [] }
    ensures no_more { into_iter_items marks.old ≡ [] → into_iter_items marks.new ≡ [] }
{
    match marks.next() {
        Some(sharp) => sharp,
        None => Sharps::new(Vec::new(alloc)),
    }
}

/// Whether a statement has a mark. Linear in the statements.
pub fn any_marked(sharp: &[Sharps]) -> bool
    ensures { result ≡ list_any has_marks sharp.now }
{
    sharp.iter().any(|marks| is_marked(marks))
}

// Whether marks are any.
fn is_marked(marks: &Sharps) -> bool
    ensures { result ≡ has_marks marks.now }
{
    match marks.items() {
        [] => false,
        _ => true,
    }
}
