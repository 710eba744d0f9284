// Short units of two nodes and perhaps one over them, some of which don't stand in the order in which they are written, or have a name that
// isn't linked.
ghost use Rattle.std.specs.Prelude.{◌≡◌, ◌<◌, ◌≤◌, All, IfOk};
ghost use Rattle.meaning_tree.specs.Nodes.{end_of};

use c_tree::{AddFault, Handle, Node, Unit};
use sparse_model::{NameId, NodeKind, Role};
use std::alloc::{AllocError, Global};
use std::process::Abort;
use std::test::Fail;
use tag_list::TagList;
use written_units::{are_linked, is_written};

// Only memory can be wanting in so small a unit.
fn add(
    rt: &impl Abort,
    unit: &mut Unit,
    kind: NodeKind,
    children: TagList,
) -> Result<Handle, AllocError>
    requires { All (λ child. (unit.old.first ≤ child.0) × (child.0 < end_of unit.old)) children }
    ensures { unit.new.first ≡ unit.old.first }
{
    let node = Node {
        kind,
        token: 0,
        name: NameId(7),
        number: 0,
        children,
    };
    match unit.add(node) {
        Ok(handle) => Ok(handle),
        Err((fault, _)) => {
            assert_eq!(rt; fault, AddFault::Memory);
            Err(AllocError)
        }
    }
}

fn add_leaf(
    rt: &impl Abort,
    alloc: Global,
    unit: &mut Unit,
    kind: NodeKind,
) -> Result<Handle, AllocError>
    ensures { unit.new.first ≡ unit.old.first }
{
    add(rt, unit, kind, TagList::new(alloc))
}

// A node over two others.
fn add_over(
    rt: &impl Abort,
    alloc: Global,
    unit: &mut Unit,
    kind: NodeKind,
    first: Handle,
    second: Handle,
) -> Result<Handle, AllocError>
    requires { unit.old.first ≡ 0 }
    ensures { unit.new.first ≡ 0 }
{
    let part = Role::TypePart.tag();
    let stand = first < unit.len() && second < unit.len();
    assert!(rt; stand);
    let mut children = TagList::new(alloc);
    children.push(first, part)?;
    children.push(second, part)?;
    add(rt, unit, kind, children)
}

// Two nodes of this kind and one over them, which has them as parts in this order.
fn build(
    rt: &impl Abort,
    alloc: Global,
    kind: NodeKind,
    first: Handle,
    second: Handle,
) -> Result<Unit, AllocError>
    ensures { IfOk result (λ unit. unit.first ≡ 0) }
{
    let mut unit = Unit::new(alloc);
    add_leaf(rt, alloc, &mut unit, kind)?;
    add_leaf(rt, alloc, &mut unit, kind)?;
    add_over(rt, alloc, &mut unit, NodeKind::Declarator, first, second)?;
    Ok(unit)
}

#[test]
fn parts_stand_in_the_order_in_which_they_are_written(rt: HostRuntime) -> Result<(), Fail> {
    let cases = [
        (NodeKind::PointerDeclarator, 0, 1, true),
        (NodeKind::PointerDeclarator, 1, 0, false),
        (NodeKind::ArrayDeclarator, 1, 0, true),
        (NodeKind::ArrayDeclarator, 0, 1, false),
        (NodeKind::FunctionDeclarator, 1, 0, true),
        // A part is named twice, and another isn't named.
        (NodeKind::PointerDeclarator, 0, 0, false),
        (NodeKind::PointerDeclarator, 1, 1, false),
    ];
    for (kind, first, second, expected) in cases {
        let unit = build(&rt, rt.alloc(), kind, first, second)?;
        let found = is_written(rt.alloc(), &unit, 8)?;
        assert_eq!(rt; found, expected, "{first} {second}");
    }
    Ok(())
}

#[test]
fn names_are_below_the_bound(rt: HostRuntime) -> Result<(), Fail> {
    let unit = build(&rt, rt.alloc(), NodeKind::PointerDeclarator, 0, 1)?;
    let found = is_written(rt.alloc(), &unit, 7)?;
    assert_eq!(rt; found, false);
    Ok(())
}

// Two trees stand in it, and the first one is a part of nothing.
#[test]
fn a_unit_is_one_tree(rt: HostRuntime) -> Result<(), Fail> {
    let mut unit = build(&rt, rt.alloc(), NodeKind::PointerDeclarator, 0, 1)?;
    add_leaf(&rt, rt.alloc(), &mut unit, NodeKind::Name)?;
    let found = is_written(rt.alloc(), &unit, 8)?;
    assert_eq!(rt; found, false);
    Ok(())
}

// Both nodes have the same name, and the number of the first handle.
#[test]
fn names_are_linked_with_what_declares_them(rt: HostRuntime) -> Result<(), Fail> {
    let cases = [
        (NodeKind::Declarator, NodeKind::Name, true),
        (NodeKind::Enumerator, NodeKind::Name, true),
        (NodeKind::PointerDeclarator, NodeKind::Name, false),
        (NodeKind::Name, NodeKind::Declarator, false),
        (NodeKind::PointerDeclarator, NodeKind::Declarator, true),
    ];
    for (first, second, expected) in cases {
        let mut unit = Unit::new(rt.alloc());
        add_leaf(&rt, rt.alloc(), &mut unit, first)?;
        add_leaf(&rt, rt.alloc(), &mut unit, second)?;
        assert_eq!(rt; are_linked(&unit), expected);
    }
    Ok(())
}
