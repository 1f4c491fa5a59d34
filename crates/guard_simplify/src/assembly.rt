//! The lists of a simple system, put together from numbered formulas and forest nodes.
ghost use Rattle.std.specs.Prelude.{◌≡◌, IfOk};
ghost use Rattle.guard_simplify.specs.Counted.{first_seen, counted_locals, counted_ups, counted_downs, left_sides_of, counted_system, counted_seen, counted_visibly};

use crate::class_rules::add_all_classes;
use crate::counting::Counted;
use crate::formula_rules::{downs_of, locals_of, ups_of};
use crate::kinds::all_kinds;
use crate::seen_rules::{add_seen, hand_up, seen_atoms};
use crate::simplified::{MOST_VISIBLE, Simplified};
use crate::spawns::all_spawns;
use sel_text::Atoms;
use simple_core::{Kinds, Link, Links, Local, Locals, Spawns, System};
use std::alloc::Global;
use tp_base::{ClassSet, NoMemory};

// The atoms that the links look at, gathered and sorted once. Linear in the links, but for the sort.
fn left_sides(alloc: Global, links: &[Link]) -> Result<ClassSet, NoMemory>
    ensures { IfOk result (λ s. s ≡ left_sides_of links.now) }
{
    let mut atoms = Vec::new(alloc);
    'links: for link in links {
        atoms.push(link.from)?;
    }
    ClassSet::of(atoms)
}

impl<'r> Counted<'r> {
    // The number of the first seen atom.
    fn first_seen(&self) -> u32
        ensures { result ≡ first_seen self.now }
    {
        (self.nodes.first_owner + self.nodes.owners.len()) as u32
    }

    // The rules that look at one node: those of formulas, of classes, and of what is seen.
    fn locals(&self, alloc: Global) -> Result<Vec<Local>, NoMemory>
        ensures { IfOk result (λ v. v.items ≡ counted_locals self.now) }
    {
        let mut locals = locals_of(alloc, self.first, self.formulas.keys.as_slice())?;
        add_all_classes(alloc, self.rules, &self.formulas.of_rules, &mut locals)?;
        add_seen(
            alloc,
            self.first_seen(),
            self.formulas.seen.numbers(),
            &mut locals,
        )?;
        Ok(locals)
    }

    // The rules that look at a child: those of formulas, and of what is seen.
    fn downs(&self, alloc: Global) -> Result<Vec<Link>, NoMemory>
        ensures { IfOk result (λ v. v.items ≡ counted_downs self.now) }
    {
        let mut downs = downs_of(alloc, self.first, self.formulas.keys.as_slice())?;
        hand_up(self.first_seen(), self.formulas.seen.numbers(), &mut downs)?;
        Ok(downs)
    }

    // The system and its seen atoms, where the rules that look at a parent are there already.
    fn put_together(
        &self,
        alloc: Global,
        up: Vec<Link>,
        visible: ClassSet,
    ) -> Result<Simplified, NoMemory>
        requires up { up.items ≡ counted_ups self.now }
        requires visible { visible ≡ left_sides_of up.items }
        ensures { IfOk result (λ s. s ≡ record { system = counted_system self.now; seen = counted_seen self.now }) }
    {
        let local = self.locals(alloc)?;
        let down = self.downs(alloc)?;
        let child = all_spawns(alloc, &self.forests, &self.formulas.of_rules, &self.nodes)?;
        let kinds = all_kinds(alloc, &self.forests, &self.nodes)?;
        let seen = seen_atoms(
            alloc,
            self.first_seen(),
            &self.formulas.seen,
            &self.formulas.of_guards,
        )?;
        Ok(Simplified {
            system: System {
                local: Locals::new(local)?,
                up: Links::new(up),
                down: Links::new(down),
                child: Spawns::new(child),
                kinds: Kinds::new(kinds),
                visible,
            },
            seen: Atoms::new(seen),
        })
    }

    /// The system and its seen atoms; nothing where too many are visible. Linear in what is counted, but for look-ups.
    pub(crate) fn assembled(&self, alloc: Global) -> Result<Option<Simplified>, NoMemory>
        ensures { IfOk result (λ o. o ≡ counted_visibly self.now) }
    {
        let up = ups_of(alloc, self.first, self.formulas.keys.as_slice())?;
        let visible = left_sides(alloc, &up)?;
        if visible.len() > MOST_VISIBLE as usize {
            return Ok(None);
        }
        let made = self.put_together(alloc, up, visible)?;
        Ok(Some(made))
    }
}
