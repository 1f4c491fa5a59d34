//! Two ways to move atoms into a set: one by one, or sorted.
ghost use Rattle.std.specs.Prelude.{◌≡◌, ◌↔◌, ◌++◌, ℕ, [], not, Contains, OnOk, OnErr};
ghost use Rattle.std.specs.List.{filter};
ghost use Rattle.std.specs.List.Sorted.{IsStrictlyIncreasing};
ghost use Rattle.tp_base.specs.Classes.{has_class, union_of};
ghost use Rattle.gathered.specs.Between.{IsBetween};

use tp_base::{Atom, ClassSet, NoMemory};

// Sorts atoms and removes duplicates.
fn order(news: &mut Vec<Atom>)
    ensures rises { IsStrictlyIncreasing news.new.items }
    ensures same { (a : ℕ) → Contains news.new.items a ↔ Contains news.old.items a }
{
    if news.len() > 1 {
        news.sort_unstable();
        news.dedup();
    }
}

// Adds the atoms one by one. Those that the set did not have are appended to `news`.
fn add_each(atoms: &[Atom], set: &mut ClassSet, news: &mut Vec<Atom>) -> Result<(), NoMemory>
    requires { news.old.items ≡ [] }
    ensures set { OnOk result (set.new ≡ union_of set.old atoms.now) }
    ensures news { OnOk result ((a : ℕ) → Contains news.new.items a ↔ (Contains set.new a × ¬ Contains set.old a)) }
    ensures between { OnErr result (IsBetween set.old (union_of set.old atoms.now) set.new) }
{
    let mut rest = atoms;
    'atoms: while let Some((atom, others)) = rest.split_first() {
        if set.add(*atom)? {
            news.push(*atom)?;
        }
        rest = others;
    }
    Ok(())
}

/// Adds each atom to a set by a search. Those that the set did not have go to `news`, which is empty before.
pub(crate) fn move_few(
    atoms: &[Atom],
    set: &mut ClassSet,
    news: &mut Vec<Atom>,
) -> Result<(), NoMemory>
    requires empty { news.old.items ≡ [] }
    requires rises { IsStrictlyIncreasing set.old }
    ensures set { OnOk result (set.new ≡ union_of set.old (union_of [] atoms.now)) }
    ensures news { OnOk result (news.new.items ≡ filter (λ a. not (has_class a set.old)) (union_of [] atoms.now)) }
    ensures between { OnErr result (IsBetween set.old (union_of set.old (union_of [] atoms.now)) set.new) }
{
    add_each(atoms, set, news)?;
    order(news);
    Ok(())
}

// Appends to `news` the atoms of `given` that `set` does not have.
fn add_news(set: &ClassSet, given: &ClassSet, news: &mut Vec<Atom>) -> Result<(), NoMemory>
    ensures { OnOk result (news.new.items ≡ news.old.items ++ filter (λ a. not (has_class a set.now)) given.now) }
{
    for i in 0..given.len() {
        let atom = given.at(i);
        if !set.has(atom) {
            news.push(atom)?;
        }
    }
    Ok(())
}

/// Sorts the atoms and adds them to a set in one walk. Those that the set did not have go to `news`, which is empty before.
pub(crate) fn move_many(
    atoms: &[Atom],
    set: &mut ClassSet,
    news: &mut Vec<Atom>,
) -> Result<(), NoMemory>
    requires { news.old.items ≡ [] }
    ensures set { OnOk result (set.new ≡ union_of set.old (union_of [] atoms.now)) }
    ensures news { OnOk result (news.new.items ≡ filter (λ a. not (has_class a set.old)) (union_of [] atoms.now)) }
    ensures between { OnErr result (IsBetween set.old (union_of set.old (union_of [] atoms.now)) set.new) }
{
    let given = ClassSet::of(Vec::from_slice(set.allocator(), atoms)?)?;
    add_news(set, &given, news)?;
    set.union(&given)?;
    Ok(())
}
