//! The check of a proof's entries.
ghost use Rattle.std.specs.Prelude.{◌≡◌, ℕ, ◌==◌, ◌&&◌, [], List, min, length, slice_get, Some, None, IsTrue, IfOk, OnOk, IfErr};
ghost use Rattle.tp_base.specs.Classes.{has_class};
ghost use Rattle.simple_core.specs.Systems.{kind_label};
ghost use Rattle.proof_check.specs.Checks.{is_down, are_sound, entries_hold};
ghost use Rattle.proof_check.specs.Firsts.{first_in, KnowsOf, KnowsBelow, KeepsBut, alone_at, near_in_kind, sound_by};
ghost use Rattle.proof_check.specs.Kept.{kept_steps};
ghost use Rattle.proof_check.specs.Unfolding.{items_count};
ghost use Rattle.proof_check.specs.Validity.{MOST_STEPS, in_entry};

use crate::checking::link_holds;
use crate::counting::items_steps;
use crate::firsts::Firsts;
use crate::premises::{Stand, grown_known, local_known};
use crate::proofs::{Below, Entries, Entry, ProofItem, Reason};
use simple_core::System;
use tp_base::{Atom, NoMemory};

/// Whether all entries hold. Their atoms are added to the table, each entry's at its number.
pub fn entries_hold(
    entries: &Entries,
    system: &System,
    known: &mut Firsts,
) -> Result<bool, NoMemory>
    requires empty { (n : ℕ) → KnowsOf known.old n [] }
    ensures test { IfOk result (λ b. b ≡ entries_hold system.now entries.now 0 entries.now) }
    ensures known { IfOk result (λ b. IsTrue b → KnowsBelow known.new (length entries.now) entries.now) }
{
    for n in 0..entries.items().len() {
        if !entry_holds(&entries.items()[n], n as u64, entries, system, known)? {
            return Ok(false);
        }
    }
    Ok(true)
}

/// Whether an entry holds, where those before it do.
pub fn entry_holds(
    entry: &Entry,
    n: u64,
    entries: &Entries,
    system: &System,
    known: &mut Firsts,
) -> Result<bool, NoMemory>
    requires empty { KnowsOf known.old n [] }
    requires below { KnowsBelow known.old n entries.now }
    ensures test { IfOk result (λ b. b ≡ (are_sound system.now entries.now (in_entry system.now n entry.now) entry.now.items
        && entry.now.steps == min (items_count system.now (kept_steps entries.now) entry.now.items) MOST_STEPS)) }
    ensures this { IfOk result (λ b. IsTrue b → KnowsOf known.new n entry.now.items) }
    ensures others { OnOk result (KeepsBut n known.old known.new) }
{
    let sound = items_hold(entry, n, entries, system, known)?;
    Ok(sound && entry.steps == items_steps(entry.items.items(), entries, system))
}

fn items_hold(
    entry: &Entry,
    n: u64,
    entries: &Entries,
    system: &System,
    known: &mut Firsts,
) -> Result<bool, NoMemory>
    requires empty { KnowsOf known.old n [] }
    requires below { KnowsBelow known.old n entries.now }
    ensures test { IfOk result (λ b. b ≡ are_sound system.now entries.now (in_entry system.now n entry.now) entry.now.items) }
    ensures this { IfOk result (λ b. IsTrue b → KnowsOf known.new n entry.now.items) }
    ensures others { OnOk result (KeepsBut n known.old known.new) }
{
    for item in entry.items.items() {
        let stand = Stand {
            system,
            entries,
            inside: known,
            known,
            node: n,
            kind: Some(entry.kind),
            lower: n,
        };
        if !item_holds(item, entry, &stand) {
            return Ok(false);
        }
        known.add(n, item.atom, is_down(&item.reason))?;
    }
    Ok(true)
}

fn item_holds(item: &ProofItem, entry: &Entry, stand: &Stand<'_>) -> bool
    ensures { result ≡ sound_by stand.now.system.now stand.now.entries.now (near_in_kind stand.now.system.now entry.now (alone_at stand.now)) item.now.atom item.now.reason }
{
    match item.reason {
        Reason::Start => is_labelled(stand.system, entry.kind, item.atom),
        Reason::Local(l) => local_known(stand.system, l, item.atom, stand.known, stand.node),
        Reason::Up(l) => link_holds(stand.system.up.items(), l, item.atom, &entry.parent),
        Reason::Down(_, Below::Real(_)) => false,
        Reason::Down(l, Below::Grown(c, e)) => grown_known(stand, l, item.atom, c, e),
    }
}

fn is_labelled(system: &System, kind: u32, atom: Atom) -> bool
    ensures { result ≡ has_class atom (kind_label system.now kind) }
{
    match system.kinds.items().get(kind as usize) {
        Some(kind) => kind.label.has(atom),
        None => false,
    }
}

/// Whether the reason is a `down` link.
pub fn is_down(reason: &Reason) -> bool
    ensures { result ≡ is_down reason.now }
{
    matches!(reason, Reason::Down(_, _))
}
