//! The calls of a chain that no `end` takes back.
ghost use Rattle.std.specs.Prelude.{◌≡◌, [], map, IfOk};
ghost use Rattle.jq_sem.specs.Statements as spec;
ghost use Rattle.jq_sem.specs.Standing.{after, last_first};
ghost use Rattle.jq_stmts.specs.Views.{call_of};

use jq_stmts::Call;
use std::alloc::Global;
use tp_base::NoMemory;

/// The calls that no `end` takes back, in their order. The first answer is true where an `end` takes back the root, too.
/// Linear in the calls.
pub fn standing<'a>(alloc: Global, calls: &'a [Call]) -> Result<(bool, Vec<&'a Call>), NoMemory>
    ensures { IfOk result (λ s. (root : spec.Root) → spec.stands root (map call_of calls.now) ≡ (after s.0 root, last_first s.1.items [])) }
{
    let mut emptied = false;
    let mut stack = Vec::new(alloc);
    'calls: for c in calls {
        if let Call::End = c {
            if stack.pop().is_none() {
                emptied = true;
            }
        } else {
            stack.push(c)?;
        }
    }
    Ok((emptied, stack))
}
