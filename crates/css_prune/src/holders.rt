//! Which at-rules with a block of rules are deleted.
ghost use Rattle.std.specs.Prelude.{◌≡◌, ◌&&◌, ◌<◌, ℕ, length, get_or, replicate, false, IfOk};
ghost use Rattle.css_read.specs.Pruned as spec;
ghost use Rattle.css_prune.specs.declared.holders.Held.TheVariants.{Nothing};
ghost use Rattle.css_prune.specs.Holding.{and_one, and_all, all_go, AreTold};

use css_read::{Holder, Holders};
use std::alloc::Global;
use tp_base::NoMemory;

/// What is known of what stands directly in the block of a holder.
#[derive(Clone, Copy, Debug, PartialEq, Eq)]
pub(crate) enum Held {
    /// So far nothing does.
    Nothing,
    /// Something does, and all of it goes.
    Gone,
    /// Something there stays.
    Stays,
}

fn with_one(held: Held, goes: bool) -> Held
    ensures { result ≡ and_one held goes }
{
    match held {
        Held::Stays => Held::Stays,
        Held::Nothing | Held::Gone => { if goes { Held::Gone } else { Held::Stays } }
    }
}

fn is_gone(held: Held) -> bool
    ensures { result ≡ all_go held }
{
    match held {
        Held::Gone => true,
        Held::Nothing | Held::Stays => false,
    }
}

// Whether a holder goes, by what stands in its block.
fn can_go(holder: &Holder, held: Held) -> bool
    ensures { result ≡ (holder.now.loose && holder.now.bare && all_go held) }
{
    holder.loose && holder.bare && is_gone(held)
}

// Tells an owner, if there is one, that something stands in its block which goes or stays.
fn tell(held: &mut Vec<Held>, owner: Option<u32>, goes: bool)
    ensures { AreTold owner goes held.old.items held.new.items }
{
    let Some(number) = owner else {
        return;
    };
    let number = number as usize;
    if number < held.len() {
        held[number] = with_one(held[number], goes);
    }
}

// Tells the owners of rules which rules go.
fn tell_rules(held: &mut Vec<Held>, owners: &[Option<u32>], gone: &[bool])
    ensures count { length held.new.items ≡ length held.old.items }
    ensures each { (n : ℕ) → n < length held.old.items → get_or held.new.items n Nothing ≡ and_all (get_or held.old.items n Nothing) (spec.held_by n owners.now gone.now) }
{
    let mut rest = owners;
    let mut flags = gone;
    'rules: while let Some((owner, later)) = rest.split_first() {
        let Some((goes, later_flags)) = flags.split_first() else {
            return;
        };
        tell(held, *owner, *goes);
        rest = later;
        flags = later_flags;
    }
}

fn nothing_held(alloc: Global, count: usize) -> Result<Vec<Held>, NoMemory>
    ensures { IfOk result (λ v. v.items ≡ replicate count Nothing) }
{
    Ok(vec![in alloc; Held::Nothing; count]?)
}

fn none_gone(alloc: Global, count: usize) -> Result<Vec<bool>, NoMemory>
    ensures { IfOk result (λ v. v.items ≡ replicate count false) }
{
    Ok(vec![in alloc; false; count]?)
}

/// For each holder whether it goes, by which rules go. Those in its block stand behind it, so the last one comes first.
/// Linear in the holders and the rules.
pub(crate) fn gone_holders(
    alloc: Global,
    holders: &Holders,
    rules: &[bool],
) -> Result<Vec<bool>, NoMemory>
    ensures { IfOk result (λ v. v.items ≡ spec.gone_holders holders.now.of_rule rules.now 0 holders.now.holders) }
{
    let list = holders.holders.items();
    let mut held = nothing_held(alloc, list.len())?;
    tell_rules(&mut held, holders.of_rule.items(), rules);
    let mut gone = none_gone(alloc, list.len())?;
    let mut number = list.len();
    'holders: while number > 0 {
        number -= 1;
        let holder = &list[number];
        let goes = can_go(holder, held[number]);
        gone[number] = goes;
        tell(&mut held, holder.inside, goes);
    }
    Ok(gone)
}
