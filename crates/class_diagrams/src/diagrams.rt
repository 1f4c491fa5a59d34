//! The arena of decision diagrams, with conjunction, disjunction and evaluation.
ghost use Rattle.std.specs.Prelude.{◌≡◌, ◌<◌, ◌≤◌, ◌↔◌, ◌&&◌, ◌||◌, ℕ, List, [], length, Ok, false, IsTrue, IsNone, IsOk, IsErrOf, IfSome, IfOk, OnOk, OnErr};
ghost use Rattle.tp_base.specs.Classes.{has_class};
ghost use Rattle.class_diagrams.specs.declared.refs.Target.{Target};
ghost use Rattle.class_diagrams.specs.References.{leaf_reference};
ghost use Rattle.class_diagrams.specs.Trees.{Tree, leaf, branch, join, eval, variable, AgreeOnAllSets, IsLeaf};
ghost use Rattle.class_diagrams.specs.Arena.{tree_at, IsIn, IsArena, StartsWith};
ghost use Rattle.class_diagrams.specs.Answers.{Gives, and_of, or_of, held_with};
ghost use Rattle.class_diagrams.specs.Gates.{IsGate, EndsInFalse};
ghost use Rattle.class_diagrams.specs.Memo.{tree_of, leaf_rule_of};
ghost use Rattle.class_diagrams.specs.Starts.{IsStart};

use crate::faults::DiagramFault;
use crate::marks::Marks;
use crate::memo::{Memo, Operation, Task};
use crate::refs::Ref;
use crate::table::{BranchTable, Pair};
use crate::variables::Variables;
use limits::MOST_BRANCHES;
use std::alloc::Global;
use std::marker::Model;
use tp_base::{Atom, ClassSet, NoMemory};

// A diagram that is known, or the atom and the pairs of diagrams that it is to be made of.
enum Start {
    Known(Ref),
    Parts {
        atom: Atom,
        low: (Ref, Ref),
        high: (Ref, Ref),
    },
}

/// An arena of reduced ordered decision diagrams, in which equal trees have equal references. A contract sees the branches
/// that it holds, each as its tree, and how many it may hold.
#[derive(Drop)]
pub struct Diagrams {
    table: BranchTable,
    memo: Memo,
    variables: Variables,
}

impl Model for Diagrams {
    ghost use Rattle.class_diagrams.specs.Arena.{Arena};
    ghost use Rattle.class_diagrams.specs.TreeCode.{arena_code};

    ghost Value = { Arena };

    ghost coded = { arena_code };

    ghost use Rattle.class_diagrams.specs.Memo.{IsRemembering};

    ghost view = { λ d. d.table };

    ghost invariant = { λ d. IsRemembering d.table d.memo d.variables };
}

impl Diagrams {
    /// An arena with no branches, for at most `nodes` of them.
    pub fn new(alloc: Global, nodes: u32) -> Result<Self, NoMemory>
        requires { nodes ≤ MOST_BRANCHES }
        ensures none { IfOk result (λ d. d.branches ≡ []) }
        ensures limit { IfOk result (λ d. d.limit ≡ nodes) }
        ensures arena { IfOk result (λ d. IsArena d) }
    {
        let memo = Memo::new(alloc)?;
        let table = BranchTable::new(alloc, nodes);
        let variables = Variables::new(alloc);
        Ok(Diagrams {
            table,
            memo,
            variables,
        })
    }

    /// The diagram that is true, or false, for every set.
    pub fn leaf(value: bool) -> Ref
        ensures inside { (branches : List Tree) → IsIn branches result }
        ensures tree { (branches : List Tree) → tree_at branches result ≡ leaf value }
    {
        Ref::leaf(value)
    }

    /// How many branches are held. Leaves are not counted.
    pub fn held(&self) -> u32
        ensures count { result ≡ length self.now.branches }
        ensures arena { IsArena self.now }
    {
        self.table.len()
    }

    /// The atom, the low and the high diagram of a branch, or nothing at a leaf. Constant.
    pub fn branch(&self, f: Ref) -> Option<(Atom, Ref, Ref)>
        requires { IsIn self.now.branches f }
        ensures leaf { IsNone result ↔ IsLeaf (tree_at self.now.branches f) }
        ensures low { IfSome result (λ b. IsIn self.now.branches b.1) }
        ensures high { IfSome result (λ b. IsIn self.now.branches b.2) }
        ensures tree { IfSome result (λ b. tree_at self.now.branches f
            ≡ branch b.0 (tree_at self.now.branches b.1) (tree_at self.now.branches b.2)) }
        ensures arena { IsArena self.now }
    {
        self.table.branch(f)
    }

    /// The value of the diagram at a set: whether the set satisfies it. Linear in its depth, logarithmic in the set's
    /// length.
    pub fn eval(&self, f: Ref, set: &ClassSet) -> bool
        requires { IsIn self.now.branches f }
        ensures { result ≡ eval (tree_at self.now.branches f) set.now }
    {
        let mut at = f;
        while let Some((atom, low, high)) = self.table.branch(at) {
            at = if set.has(atom) { high } else { low };
        }
        at.is(Diagrams::leaf(true))
    }

    /// Whether the set that is marked satisfies the diagram. Linear in its depth.
    pub fn eval_marked(&self, f: Ref, marks: &Marks) -> bool
        requires { IsIn self.now.branches f }
        ensures { result ≡ eval (tree_at self.now.branches f) marks.now }
    {
        let mut at = f;
        while let Some((atom, low, high)) = self.table.branch(at) {
            at = if marks.has(atom) { high } else { low };
        }
        at.is(Diagrams::leaf(true))
    }

    /// A gate: two atoms of which each set has one that satisfies the diagram. It is found where the low parts end in false
    /// behind two branches at most. Constant.
    pub fn gate(&self, f: Ref) -> Option<(Atom, Atom)>
        requires { IsIn self.now.branches f }
        ensures some { IfSome result (λ g. IsGate g.0 g.1 (tree_at self.now.branches f)) }
        ensures none { IsNone result → ¬ EndsInFalse (tree_at self.now.branches f) }
    {
        let (first, low, _) = self.branch(f)?;
        match self.branch(low) {
            Some((second, rest, _)) => gate_before(first, second, rest),
            None => gate_before(first, first, low),
        }
    }

    /// Whether two diagrams have the same tree, and so the same meaning. Constant.
    pub fn same(&self, f: Ref, g: Ref) -> bool
        requires first { IsIn self.now.branches f }
        requires second { IsIn self.now.branches g }
        ensures same { IsTrue result ↔ (tree_at self.now.branches f ≡ tree_at self.now.branches g) }
        ensures agree { IsTrue result ↔ AgreeOnAllSets (tree_at self.now.branches f) (tree_at self.now.branches g) }
        ensures arena { IsArena self.now }
    {
        self.table.same(f, g)
    }

    /// The diagram of the sets that have the atom. Constant, but for a step for each smaller atom where it is the largest so far.
    pub fn var(&mut self, atom: Atom) -> Result<Ref, DiagramFault>
        ensures tree { IfOk result (λ r. tree_at self.new.branches r ≡ variable atom) }
        ensures means { IfOk result (λ r. (set : List ℕ) → eval (tree_at self.new.branches r) set ≡ has_class atom set) }
        ensures inside { IfOk result (λ r. IsIn self.new.branches r) }
        ensures held { OnOk result (self.new.branches ≡ held_with self.old (variable atom)) }
        ensures full { IsErrOf result DiagramFault.Full → self.old.limit < length (held_with self.old (variable atom)) }
        ensures fits { IsOk result → length (held_with self.old (variable atom)) ≤ self.old.limit }
        ensures stays { StartsWith self.old.branches self.new.branches }
        ensures only { StartsWith self.new.branches (held_with self.old (variable atom)) }
        ensures references { (p : Target) → IsIn self.old.branches p
            → IsIn self.new.branches p × (tree_at self.new.branches p ≡ tree_at self.old.branches p) }
        ensures limit { self.new.limit ≡ self.old.limit }
        ensures arena { IsArena self.new }
    {
        self.variable(atom)
    }

    /// The conjunction. It costs at most the product of the two sizes while the memo has room for the results. The recursion
    /// is no deeper than the number of different atoms in the two.
    pub fn and(&mut self, f: Ref, g: Ref) -> Result<Ref, DiagramFault>
        requires first { IsIn self.old.branches f }
        requires second { IsIn self.old.branches g }
        ensures tree { IfOk result (λ r. tree_at self.new.branches r ≡ and_of self.old f g) }
        ensures means { IfOk result (λ r. (set : List ℕ) → eval (tree_at self.new.branches r) set
            ≡ (eval (tree_at self.old.branches f) set && eval (tree_at self.old.branches g) set)) }
        ensures inside { IfOk result (λ r. IsIn self.new.branches r) }
        ensures held { OnOk result (self.new.branches ≡ held_with self.old (and_of self.old f g)) }
        ensures full { IsErrOf result DiagramFault.Full → self.old.limit < length (held_with self.old (and_of self.old f g)) }
        ensures fits { IsOk result → length (held_with self.old (and_of self.old f g)) ≤ self.old.limit }
        ensures stays { StartsWith self.old.branches self.new.branches }
        ensures only { StartsWith self.new.branches (held_with self.old (and_of self.old f g)) }
        ensures references { (p : Target) → IsIn self.old.branches p
            → IsIn self.new.branches p × (tree_at self.new.branches p ≡ tree_at self.old.branches p) }
        ensures limit { self.new.limit ≡ self.old.limit }
        ensures arena { IsArena self.new }
    {
        self.operated(Operation::And, f, g)
    }

    /// The disjunction. It costs at most the product of the two sizes while the memo has room for the results. The recursion
    /// is no deeper than the number of different atoms in the two.
    pub fn or(&mut self, f: Ref, g: Ref) -> Result<Ref, DiagramFault>
        requires first { IsIn self.old.branches f }
        requires second { IsIn self.old.branches g }
        ensures tree { IfOk result (λ r. tree_at self.new.branches r ≡ or_of self.old f g) }
        ensures means { IfOk result (λ r. (set : List ℕ) → eval (tree_at self.new.branches r) set
            ≡ (eval (tree_at self.old.branches f) set || eval (tree_at self.old.branches g) set)) }
        ensures inside { IfOk result (λ r. IsIn self.new.branches r) }
        ensures held { OnOk result (self.new.branches ≡ held_with self.old (or_of self.old f g)) }
        ensures full { IsErrOf result DiagramFault.Full → self.old.limit < length (held_with self.old (or_of self.old f g)) }
        ensures fits { IsOk result → length (held_with self.old (or_of self.old f g)) ≤ self.old.limit }
        ensures stays { StartsWith self.old.branches self.new.branches }
        ensures only { StartsWith self.new.branches (held_with self.old (or_of self.old f g)) }
        ensures references { (p : Target) → IsIn self.old.branches p
            → IsIn self.new.branches p × (tree_at self.new.branches p ≡ tree_at self.old.branches p) }
        ensures limit { self.new.limit ≡ self.old.limit }
        ensures arena { IsArena self.new }
    {
        self.operated(Operation::Or, f, g)
    }

    fn variable(&mut self, atom: Atom) -> Result<Ref, DiagramFault>
        ensures { Gives self.old self.new (variable atom) result }
    {
        match self.noted(atom) {
            Some(known) => Ok(known),
            None => self.make_variable(atom),
        }
    }

    // The variable of an atom, where it was made before.
    fn noted(&self, atom: Atom) -> Option<Ref>
        ensures { IfSome result (λ r. Gives self.now self.now (variable atom) (Ok r)) }
    {
        self.variables.of(atom)
    }

    // The variable of an atom, which is noted.
    fn make_variable(&mut self, atom: Atom) -> Result<Ref, DiagramFault>
        ensures { Gives self.old self.new (variable atom) result }
    {
        let joined = self
            .table
            .join(atom, Diagrams::leaf(false), Diagrams::leaf(true))?;
        let _ = self.variables.note(atom, joined);
        Ok(joined)
    }

    // The diagram of an operation, at once where one of the two is a leaf.
    fn operated(&mut self, operation: Operation, f: Ref, g: Ref) -> Result<Ref, DiagramFault>
        requires first { IsIn self.old.branches f }
        requires second { IsIn self.old.branches g }
        ensures { Gives self.old self.new (tree_of operation (tree_at self.old.branches f) (tree_at self.old.branches g)) result }
    {
        match self.by_leaf(operation, f, g) {
            Some(known) => Ok(known),
            None => self.combined(operation, f, g),
        }
    }

    // The diagram of an operation where one of the two is a leaf.
    fn by_leaf(&self, operation: Operation, f: Ref, g: Ref) -> Option<Ref>
        requires first { IsIn self.now.branches f }
        requires second { IsIn self.now.branches g }
        ensures { IfSome result (λ r. Gives self.now self.now (tree_of operation (tree_at self.now.branches f) (tree_at self.now.branches g)) (Ok r)) }
    {
        match self.table.pair(f, g) {
            Pair::WithLeaf { value, other } => Some(with_leaf(operation, value, other)),
            Pair::Branches { .. } => None,
        }
    }

    fn combined(&mut self, operation: Operation, f: Ref, g: Ref) -> Result<Ref, DiagramFault>
        requires first { IsIn self.old.branches f }
        requires second { IsIn self.old.branches g }
        ensures { Gives self.old self.new (tree_of operation (tree_at self.old.branches f) (tree_at self.old.branches g)) result }
    {
        match self.start(operation, f, g) {
            Start::Known(known) => Ok(known),
            Start::Parts { atom, low, high } => {
                let low = self.combined(operation, low.0, low.1)?;
                let high = self.combined(operation, high.0, high.1)?;
                self.finish(operation, f, g, atom, low, high)
            }
        }
    }

    // The diagram where it is known, or what it is to be made of. Kept apart from the recursion, whose frames
    // are to be small.
    #[inline(never)]
    fn start(&mut self, operation: Operation, f: Ref, g: Ref) -> Start
        requires first { IsIn self.old.branches f }
        requires second { IsIn self.old.branches g }
        ensures start { IsStart operation self.new f g result }
        ensures same { self.new ≡ self.old }
        ensures arena { IsArena self.new }
    {
        if self.table.same(f, g) {
            return Start::Known(f);
        }
        match self.table.pair(f, g) {
            Pair::WithLeaf { value, other } => Start::Known(with_leaf(operation, value, other)),
            Pair::Branches { atom, low, high } => {
                match self.memo.recall(&Task::of(operation, f, g)) {
                    Some(known) => Start::Known(known),
                    None => Start::Parts { atom, low, high },
                }
            }
        }
    }

    // The diagram, from its two parts.
    #[inline(never)]
    fn finish(
        &mut self,
        operation: Operation,
        f: Ref,
        g: Ref,
        atom: Atom,
        low: Ref,
        high: Ref,
    ) -> Result<Ref, DiagramFault>
        requires first { IsIn self.old.branches f }
        requires second { IsIn self.old.branches g }
        requires low_in { IsIn self.old.branches low }
        requires high_in { IsIn self.old.branches high }
        requires parts { tree_of operation (tree_at self.old.branches f) (tree_at self.old.branches g)
            ≡ join atom (tree_at self.old.branches low) (tree_at self.old.branches high) }
        ensures { Gives self.old self.new (tree_of operation (tree_at self.old.branches f) (tree_at self.old.branches g)) result }
    {
        let joined = self.table.join(atom, low, high)?;
        self.memo.note(Task::of(operation, f, g), joined);
        Ok(joined)
    }
}

// These two atoms, where what is left for the sets without them is false.
fn gate_before(first: Atom, second: Atom, rest: Ref) -> Option<(Atom, Atom)>
    ensures atoms { IfSome result (λ g. (g.0 ≡ first) × (g.1 ≡ second)) }
    ensures rest { IfSome result (λ g. rest ≡ leaf_reference false) }
    ensures none { IsNone result → ¬ (rest ≡ leaf_reference false) }
{
    if rest.is(Diagrams::leaf(false)) {
        Some((first, second))
    } else {
        None
    }
}

// The diagram of an operation where one of the two is a leaf.
fn with_leaf(operation: Operation, value: bool, other: Ref) -> Ref
    ensures { (branches : List Tree) → IsIn branches other → IsIn branches result × (tree_at branches result ≡ leaf_rule_of operation value (tree_at branches other)) }
{
    match operation {
        Operation::And => if value { other } else { Diagrams::leaf(false) },
        Operation::Or => if value { Diagrams::leaf(true) } else { other },
    }
}
