//! The forests of the rules' actions, and their nodes.
ghost use Rattle.std.specs.Prelude.{◌≡◌, ◌≤◌, length, map, fold, filter, nat_lt, IfOk, OnOk};
ghost use Rattle.std.specs.List.{flat_map};
ghost use Rattle.tree_sem.specs.Order.{paths_from};
ghost use Rattle.tree_sem.specs.Trees.{count_of};
ghost use Rattle.tree_sem.specs.declared.tree_fault.TheConstants.{MOST_NODES};
ghost use Rattle.guard_simplify.specs.Firsts.{with_new, different};
ghost use Rattle.guard_simplify.specs.Auxiliaries.{forest_of, same_place};
ghost use Rattle.guard_simplify.specs.Simplified.{is_beside};
ghost use Rattle.guard_simplify.specs.ForestRules.{placed, rooted, child_count};
ghost use Rattle.guard_simplify.specs.Forests.{planted, planting, plantings, places_of, owners_of};
ghost use Rattle.guard_simplify.specs.AtomNumbers.{HasFewNodes, HaveFewNodes};
ghost use Rattle.guard_simplify.specs.declared.simplified.TheConstants.{MOST_RULES};

use guard_sem::Rule;
use indexmap::IndexSet;
use std::alloc::Global;
use tp_base::{ClassSet, NoMemory, Path};
use tree_sem::{Action, Tour, Tree, TreeFault};

/// A node of the forest of the rule of this number, by its path, which has one number for a top node.
#[derive(PartialEq, Eq, Hash, Drop)]
pub struct ForestNode {
    pub rule: u32,
    pub path: Vec<u32>,
}

/// The forest of the rule of this number, below a root that stands for the node which takes it; the paths of its nodes,
/// in the order of the document; and whether its trees are added to the parent of the node that was selected.
#[derive(Drop)]
pub(crate) struct RuleForest {
    pub rule: u32,
    pub tree: Tree,
    pub paths: Vec<Path>,
    pub beside: bool,
}

// The trees below a root without atoms.
fn below_root(alloc: Global, tops: &[Tree]) -> Result<Tree, NoMemory>
    requires { count_of (rooted tops.now) ≤ MOST_NODES }
    ensures { IfOk result (λ t. t ≡ rooted tops.now) }
{
    let mut tree = Tree::new(alloc, ClassSet::new(alloc))?;
    let root = Path::root(alloc);
    match tree.add_trees(&root, tops) {
        Ok(()) => Ok(tree),
        Err(TreeFault::NoSuchNode) => unreachable!(),
        Err(TreeFault::TooManyNodes) => unreachable!(),
        Err(TreeFault::Memory) => Err(NoMemory),
    }
}

// The forest that the rule adds, below a root. It has no nodes where the rule adds classes.
fn forest_tree(alloc: Global, rule: &Rule) -> Result<Tree, NoMemory>
    requires { HasFewNodes rule.now }
    ensures { IfOk result (λ t. t ≡ forest_of rule.now) }
{
    match &rule.action {
        Action::Classes(_) => Tree::new(alloc, ClassSet::new(alloc)),
        Action::Inside(forest) => below_root(alloc, forest.tops.items()),
        Action::Beside(forest) => below_root(alloc, forest.tops.items()),
    }
}

// The paths of the nodes below the root, in the order of the document.
fn paths_below(alloc: Global, tree: &Tree) -> Result<Vec<Path>, NoMemory>
    ensures { IfOk result (λ v. v.items ≡ paths_from 0 tree.now.below) }
{
    let mut paths = Vec::new(alloc);
    let mut tour = Tour::new(alloc, tree);
    'nodes: loop {
        if !tour.go_on()? {
            return Ok(paths);
        }
        paths.push(tour.path().copy()?)?;
    }
}

// Whether the trees are added to the parent of the node that was selected.
fn is_beside(action: &Action) -> bool
    ensures { result ≡ is_beside action.now }
{
    match action {
        Action::Classes(_) => false,
        Action::Inside(_) => false,
        Action::Beside(_) => true,
    }
}

// The numbers of a path, from the root on.
fn steps_of(alloc: Global, at: &Path) -> Result<Vec<u32>, NoMemory>
    ensures { IfOk result (λ v. v.items ≡ at.now) }
{
    let mut steps = Vec::new(alloc);
    'steps: for i in 0..at.len() {
        steps.push(at.at(i))?;
    }
    Ok(steps)
}

impl RuleForest {
    // The forest of the rule, which has this number. Linear in its nodes, their labels and paths.
    fn new(alloc: Global, number: u32, rule: &Rule) -> Result<RuleForest, NoMemory>
        requires { HasFewNodes rule.now }
        ensures { IfOk result (λ f. planted f ≡ planting number rule.now) }
    {
        let tree = forest_tree(alloc, rule)?;
        let paths = paths_below(alloc, &tree)?;
        Ok(RuleForest {
            rule: number,
            tree,
            paths,
            beside: is_beside(&rule.action),
        })
    }

    /// The node at the path.
    pub(crate) fn node(&self, at: &Path) -> Result<ForestNode, NoMemory>
        ensures { IfOk result (λ n. placed n ≡ (self.now.rule, at.now)) }
    {
        let path = steps_of(*self.paths.allocator(), at)?;
        Ok(ForestNode {
            rule: self.rule,
            path,
        })
    }

    /// How many children the node at the path has; none where there is no such node.
    pub(crate) fn children(&self, at: &Path) -> u32
        ensures { result ≡ child_count self.now.tree at.now }
    {
        self.tree.children(at).unwrap_or(0)
    }

    // Puts the nodes at the paths behind those that are there.
    fn add_nodes(&self, paths: &[Path], nodes: &mut IndexSet<ForestNode>) -> Result<(), NoMemory>
        ensures { OnOk result (map placed nodes.new.keys ≡ fold (with_new same_place) (map placed nodes.old.keys) (map (λ q. (self.now.rule, q)) paths.now)) }
    {
        'paths: for at in paths {
            nodes.insert(self.node(at)?)?;
        }
        Ok(())
    }

    // The paths of the nodes with children.
    fn with_children(&self) -> Result<Vec<Path>, NoMemory>
        ensures { IfOk result (λ v. v.items ≡ filter (λ q. nat_lt 0 (child_count self.now.tree q)) self.now.paths.items) }
    {
        let mut found = Vec::new(*self.paths.allocator());
        'paths: for at in &self.paths {
            if self.children(at) > 0 {
                found.push(at.copy()?)?;
            }
        }
        Ok(found)
    }
}

/// The forests of the rules, one after another. Linear in them.
pub(crate) fn all_forests(alloc: Global, rules: &[Rule]) -> Result<Vec<RuleForest>, NoMemory>
    requires few_rules { length rules.now ≤ MOST_RULES }
    requires few_nodes { HaveFewNodes rules.now }
    ensures { IfOk result (λ v. map planted v.items ≡ plantings 0 rules.now) }
{
    let mut forests = Vec::new(alloc);
    let mut number = 0;
    let mut rest = rules;
    'rules: while let Some((rule, later)) = rest.split_first() {
        forests.push(RuleForest::new(alloc, number, rule)?)?;
        number += 1;
        rest = later;
    }
    Ok(forests)
}

/// The nodes of all forests, each once, in the order of the rules and of the documents. Linear in the forests.
pub(crate) fn all_nodes(
    alloc: Global,
    forests: &[RuleForest],
) -> Result<IndexSet<ForestNode>, NoMemory>
    ensures { IfOk result (λ s. map placed s.keys ≡ different same_place (flat_map places_of forests.now)) }
{
    let mut nodes = IndexSet::new(alloc);
    let mut rest = forests;
    'forests: while let Some((forest, later)) = rest.split_first() {
        forest.add_nodes(&forest.paths, &mut nodes)?;
        rest = later;
    }
    Ok(nodes)
}

/// The nodes of all forests that have children. Linear in the forests.
pub(crate) fn all_owners(
    alloc: Global,
    forests: &[RuleForest],
) -> Result<IndexSet<ForestNode>, NoMemory>
    ensures { IfOk result (λ s. map placed s.keys ≡ different same_place (flat_map owners_of forests.now)) }
{
    let mut owners = IndexSet::new(alloc);
    let mut rest = forests;
    'forests: while let Some((forest, later)) = rest.split_first() {
        let paths = forest.with_children()?;
        forest.add_nodes(&paths, &mut owners)?;
        rest = later;
    }
    Ok(owners)
}
