//! One walk that fills the columns of a numbered tree.
ghost use Rattle.std.specs.Prelude.{◌≡◌, ◌<◌, [], ◌∷◌, ◌++◌, length, take, map, get_or, OnOk};
ghost use Rattle.node_marks.specs.Numbering.{number_above, last_step};

use crate::passes::number_at;
use std::alloc::Global;
use tp_base::{ClassSet, NoMemory, Path};

/// The columns of the nodes that a walk has reached, by their numbers. Also the numbers of the nodes on the way to the last
/// of them, and of itself.
#[derive(Drop)]
pub struct Walk<'a> {
    pub parents: Vec<usize>,
    pub steps: Vec<u32>,
    pub labels: Vec<&'a ClassSet>,
    pub line: Vec<usize>,
}

impl<'a> Walk<'a> {
    /// A walk that has gone nowhere. Constant.
    pub fn new(alloc: Global) -> Walk<'a>
        ensures parents { result.parents.items ≡ [] }
        ensures steps { result.steps.items ≡ [] }
        ensures labels { result.labels.items ≡ [] }
    {
        Walk {
            parents: Vec::new(alloc),
            steps: Vec::new(alloc),
            labels: Vec::new(alloc),
            line: Vec::new(alloc),
        }
    }

    /// Puts in the node at the path, which has this label.
    pub fn enter(&mut self, at: &Path, label: &'a ClassSet) -> Result<(), NoMemory>
        ensures parents { OnOk result (self.new.parents.items ≡ self.old.parents.items ++ number_above (take (length at.now) self.old.line.items) at.now ∷ []) }
        ensures steps { OnOk result (self.new.steps.items ≡ self.old.steps.items ++ last_step at.now ∷ []) }
        ensures labels { OnOk result (map (λ b. b.now) self.new.labels.items ≡ map (λ b. b.now) self.old.labels.items ++ label.now ∷ []) }
        ensures line { OnOk result (self.new.line.items ≡ take (length at.now) self.old.line.items ++ length self.old.parents.items ∷ []) }
    {
        let number = self.parents.len();
        self.line.truncate(at.len());
        self.parents.push(above(&self.line, at))?;
        self.steps.push(step_to(at))?;
        self.labels.push(label)?;
        self.line.push(number)?;
        Ok(())
    }
}

// The number of the node above, among those on the way.
fn above(line: &[usize], at: &Path) -> usize
    ensures { result ≡ number_above line.now at.now }
{
    number_at(line, at.len().saturating_sub(1))
}

// The last step of a path; 0 at the root.
#[tactic(auto, using(std::proofs::lemmas::List::get_or_past))]
fn step_to(at: &Path) -> u32
    ensures { result ≡ last_step at.now }
{
    if at.len() == 0 {
        return 0;
    }
    at.at(at.len() - 1)
}
