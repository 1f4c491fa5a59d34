//! For each node the least numbered node of a set above or below it.
ghost use Rattle.std.specs.Prelude.{◌<◌, ◌⊎◌, ◌↔◌, ℕ, IfOk, IsTrue};
ghost use Rattle.tree_sem.specs.Nodes.{IsNode};
ghost use Rattle.node_marks.specs.Marks.{IsMarked, IsSetOf, HasParentIn, HasAncestorIn, HasChildIn, HasDescendantIn, HasOtherIn};
ghost use Rattle.node_marks.specs.Ranks.{IsUnder, AreRanked, HasNearestIn, IsEarly, IsReached, IsLeastRank, HasUnranked};

use crate::marks::Marks;
use crate::numbered_tree::NumberedTree;
use crate::rank_passes as passes;
use crate::ranks::Ranks;
use tp_base::NoMemory;

impl<'a> NumberedTree<'a> {
    /// Each node's own number.
    pub fn own_ranks(&self) -> Result<Ranks, NoMemory>
        ensures { IfOk result (λ m. AreRanked self.now m (IsEarly self.now)) }
    {
        Ok(Ranks::new(passes::own(self.allocator(), self.count())?))
    }

    /// The numbers of the nodes of the set alone.
    pub fn ranks_in(&self, set: &Marks, ranks: &Ranks) -> Result<Ranks, NoMemory>
        ensures { IfOk result (λ m. AreRanked self.now m (λ k v. IsMarked self.now set.now v × IsUnder self.now k ranks.now v)) }
    {
        Ok(Ranks::new(passes::chosen(self.allocator(), self.count(), set.items(), ranks.items())?))
    }

    /// For each node the number of its parent.
    pub fn ranks_below(&self, ranks: &Ranks) -> Result<Ranks, NoMemory>
        ensures { IfOk result (λ m. AreRanked self.now m (λ k v. IsNode self.now v × HasParentIn (IsUnder self.now k ranks.now) v)) }
    {
        Ok(Ranks::new(passes::below(self.allocator(), self.parents(), ranks.items())?))
    }

    /// For each node the least number of the nodes above it.
    pub fn ranks_far_below(&self, ranks: &Ranks) -> Result<Ranks, NoMemory>
        ensures { IfOk result (λ m. AreRanked self.now m (λ k v. IsNode self.now v × HasAncestorIn (IsUnder self.now k ranks.now) v)) }
    {
        Ok(Ranks::new(passes::far_below(self.allocator(), self.parents(), ranks.items())?))
    }

    /// For each node the least number of its children.
    pub fn ranks_over(&self, ranks: &Ranks) -> Result<Ranks, NoMemory>
        ensures { IfOk result (λ m. AreRanked self.now m (λ k. HasChildIn (IsUnder self.now k ranks.now))) }
    {
        Ok(Ranks::new(passes::over(self.allocator(), self.parents(), ranks.items())?))
    }

    /// The least one of the nodes below.
    pub fn ranks_far_over(&self, ranks: &Ranks) -> Result<Ranks, NoMemory>
        ensures { IfOk result (λ m. AreRanked self.now m (λ k. HasDescendantIn (IsUnder self.now k ranks.now))) }
    {
        Ok(Ranks::new(passes::far_over(self.allocator(), self.parents(), ranks.items())?))
    }

    /// For each node the number of the nearest one upward, itself first, that is in the set.
    pub fn nearest_ranks(&self, ranks: &Ranks, set: &Marks) -> Result<Ranks, NoMemory>
        ensures { IfOk result (λ m. AreRanked self.now m (λ k v. IsNode self.now v × HasNearestIn (IsMarked self.now set.now) (IsUnder self.now k ranks.now) v)) }
    {
        Ok(Ranks::new(passes::nearest(
            self.allocator(),
            self.parents(),
            ranks.items(),
            set.items(),
        )?))
    }

    /// The least one of the other children of the parent.
    pub fn ranks_beside(&self, ranks: &Ranks) -> Result<Ranks, NoMemory>
        ensures { IfOk result (λ m. AreRanked self.now m (λ k v. IsNode self.now v × HasOtherIn (IsUnder self.now k ranks.now) v)) }
    {
        let parents = self.parents();
        let behind = passes::behind(self.allocator(), parents, ranks.items())?;
        let ahead = passes::ahead(self.allocator(), parents, ranks.items())?;
        let made = passes::lesser(self.allocator(), self.count(), &behind, &ahead)?;
        Ok(Ranks::new(made))
    }

    /// The numbers that aren't more than this one, and in the place of those that are it.
    pub fn ranks_up_to(&self, ranks: &Ranks, most: usize) -> Result<Ranks, NoMemory>
        ensures { IfOk result (λ m. AreRanked self.now m (λ k v. IsNode self.now v × (IsUnder self.now k ranks.now v ⊎ (most < k)))) }
    {
        Ok(Ranks::new(passes::up_to(self.allocator(), self.count(), ranks.items(), most)?))
    }

    /// The least of all numbers; none where no node has one.
    pub fn least_rank(&self, ranks: &Ranks) -> usize
        ensures { IsLeastRank self.now ranks.now result }
    {
        passes::least_of(self.count(), ranks.items())
    }

    /// Whether a node of the set has none.
    pub fn has_unranked(&self, set: &Marks, ranks: &Ranks) -> bool
        ensures { IsTrue result ↔ HasUnranked self.now ranks.now (IsMarked self.now set.now) }
    {
        passes::is_any_without(self.count(), set.items(), ranks.items())
    }

    /// The nodes whose numbers those of the set have.
    pub fn reached(&self, set: &Marks, ranks: &Ranks) -> Result<Marks, NoMemory>
        ensures { IfOk result (λ m. IsSetOf self.now m (IsReached self.now ranks.now (IsMarked self.now set.now))) }
    {
        Ok(Marks::new(passes::reached(self.allocator(), self.count(), set.items(), ranks.items())?))
    }
}
