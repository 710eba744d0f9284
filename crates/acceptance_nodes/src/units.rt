// A small unit that is built with a part, and one that is filled until it refuses a node.
ghost use Rattle.std.specs.Prelude.{◌≡◌, ◌<◌, ◌≤◌, All, IfOk};
ghost use Rattle.meaning_tree.specs.Nodes.{end_of};

use c_tree::{AddFault, Handle, Node, Unit};
use sparse_model::{NameId, NodeKind, Role};
use std::alloc::{AllocError, Global};
use std::process::Abort;
use std::test::Fail;
use tag_list::TagList;

// Only memory can be wanting in so small a unit.
fn add(
    rt: &impl Abort,
    unit: &mut Unit,
    kind: NodeKind,
    token: u32,
    children: TagList,
) -> Result<Handle, AllocError>
    requires { All (λ child. (unit.old.first ≤ child.0) × (child.0 < end_of unit.old)) children }
    ensures { unit.new.first ≡ unit.old.first }
{
    let node = Node {
        kind,
        token,
        name: NameId(token),
        number: 0,
        children,
    };
    match unit.add(node) {
        Ok(handle) => Ok(handle),
        Err((fault, node)) => {
            assert_eq!(rt; fault, AddFault::Memory);
            assert_eq!(rt; node.token, token, "a refused node comes back");
            Err(AllocError)
        }
    }
}

fn add_name(
    rt: &impl Abort,
    alloc: Global,
    unit: &mut Unit,
    token: u32,
) -> Result<Handle, AllocError>
    ensures { unit.new.first ≡ unit.old.first }
{
    add(rt, unit, NodeKind::Name, token, TagList::new(alloc))
}

// An assignment of the third node to the first one.
fn add_assignment(rt: &impl Abort, alloc: Global, unit: &mut Unit) -> Result<Handle, AllocError>
    requires { unit.old.first ≡ 0 }
    ensures { unit.new.first ≡ 0 }
{
    let evaluated = Role::Evaluated.tag();
    let mut children = TagList::new(alloc);
    children.push(0, evaluated)?;
    children.push(2, evaluated)?;
    let names_stand = unit.len() > 2;
    assert!(rt; names_stand);
    add(rt, unit, NodeKind::Assignment, 2, children)
}

// A node over the last one.
fn add_over_last(rt: &impl Abort, alloc: Global, unit: &mut Unit) -> Result<Handle, AllocError>
    requires { unit.old.first ≡ 0 }
    ensures { unit.new.first ≡ 0 }
{
    let count = unit.len();
    let some_stand = count > 0;
    assert!(rt; some_stand);
    let mut children = TagList::new(alloc);
    children.push(count - 1, Role::Evaluated.tag())?;
    add(rt, unit, NodeKind::Parenthesized, 0, children)
}

fn has(unit: &Unit, handle: Handle, kind: NodeKind, token: u32, children: u32) -> bool
    requires { unit.now.first ≡ 0 }
{
    handle < unit.len()
        && unit.kind(handle) == kind
        && unit.token(handle) == token
        && unit.children(handle).len() == children
        && unit.node(handle).name == NameId(token)
}

// `a = c;` between the names a, b and c, of which the last one is built in a part.
fn build(rt: &impl Abort, alloc: Global) -> Result<Unit, AllocError>
    ensures { IfOk result (λ unit. unit.first ≡ 0) }
{
    let mut unit = Unit::new(alloc);
    add_name(rt, alloc, &mut unit, 0)?;
    add_name(rt, alloc, &mut unit, 1)?;

    let mut part = unit.part(alloc);
    let handle = add_name(rt, alloc, &mut part, 3)?;
    assert_eq!(rt; handle, 2);
    unit.absorb(part);
    let count = unit.len();
    assert_eq!(rt; count, 3);

    add_assignment(rt, alloc, &mut unit)?;
    Ok(unit)
}

#[test]
fn a_part_is_taken_in(rt: HostRuntime) -> Result<(), Fail> {
    let unit = build(&rt, rt.alloc())?;
    let cases = [
        (0, NodeKind::Name, 0, 0),
        (1, NodeKind::Name, 1, 0),
        (2, NodeKind::Name, 3, 0),
        (3, NodeKind::Assignment, 2, 2),
    ];
    for (handle, kind, token, children) in cases {
        assert!(rt; has(&unit, handle, kind, token, children), "node {handle}");
    }
    assert_eq!(rt; unit.len(), 4);
    Ok(())
}

// Each round drops the nodes before its part, so that a million of them stand in memory at once.
#[test]
fn a_full_unit_hands_a_node_back(rt: HostRuntime) -> Result<(), Fail> {
    let mut unit = Unit::new(rt.alloc());
    for _round in 0..16 {
        unit = unit.part(rt.alloc());
        for _node in 0..1_000_000 {
            add_name(&rt, rt.alloc(), &mut unit, 7)?;
        }
    }
    assert_eq!(rt; unit.len(), 16_000_000);
    let node = Node {
        kind: NodeKind::Assignment,
        token: 9,
        name: NameId(8),
        number: 5,
        children: TagList::new(rt.alloc()),
    };
    let Err((fault, node)) = unit.add(node) else {
        return Err(Fail::new("a full unit took a node"));
    };
    assert_eq!(rt; fault, AddFault::Limit);
    assert_eq!(rt;
        (node.kind, node.token, node.name),
        (NodeKind::Assignment, 9, NameId(8))
    );
    assert_eq!(rt; (node.number, node.children.len()), (5, 0));
    assert_eq!(rt; unit.len(), 16_000_000);
    Ok(())
}

// Were nodes released by way of their parents, the stack wouldn't suffice.
#[test]
fn a_deep_unit_is_released(rt: HostRuntime) -> Result<(), Fail> {
    let mut unit = Unit::new(rt.alloc());
    add_name(&rt, rt.alloc(), &mut unit, 0)?;
    for _node in 0..500_000 {
        add_over_last(&rt, rt.alloc(), &mut unit)?;
    }
    assert_eq!(rt; unit.len(), 500_001);
    Ok(())
}
