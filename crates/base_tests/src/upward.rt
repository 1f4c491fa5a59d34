use crate::trees::{family, last_class};
use std::alloc::Global;
use std::test::Fail;
use test_building::path_of;
use tp_base::NoMemory;
use tree_sem::Tree;

// The last class of the node at a path and of each node above it, where a node is there.
static UPWARD: [(&[u32], Option<&[u32]>); 6] = [
    (&[], Some(&[1])),
    (&[2], Some(&[4, 1])),
    (&[1, 1], Some(&[6, 13, 1])),
    (&[1, 0, 0], Some(&[7, 5, 13, 1])),
    (&[3], None),
    (&[1, 0, 0, 0], None),
];

// The classes that a walk upward from the path meets.
fn climbed(alloc: Global, tree: &Tree, steps: &[u32]) -> Result<Option<Vec<u32>>, NoMemory> {
    let at = path_of(alloc, steps)?;
    let Some(node) = tree.node(&at) else {
        return Ok(None);
    };
    let mut classes = Vec::new(alloc);
    classes.push(last_class(node.label()))?;
    let mut above = node.parent();
    for _ in 0..20 {
        let Some(next) = above else {
            break;
        };
        classes.push(last_class(next.label()))?;
        above = next.parent();
    }
    Ok(Some(classes))
}

fn climbs(
    alloc: Global,
    tree: &Tree,
    steps: &[u32],
    wanted: &Option<&'static [u32]>,
) -> Result<bool, NoMemory> {
    let found = climbed(alloc, tree, steps)?;
    Ok(found.as_ref().map(|classes| classes.as_slice()) == *wanted)
}

#[test]
fn climbs_to_the_root(rt: HostRuntime) -> Result<(), Fail> {
    let tree = family(rt.alloc())?;
    for (steps, wanted) in &UPWARD {
        assert!(rt; climbs(rt.alloc(), &tree, steps, wanted)?);
    }
    Ok(())
}
