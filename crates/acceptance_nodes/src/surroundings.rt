// What the nodes of `{ p = u; }` stand in, as one can tell by eye.
ghost use Rattle.std.specs.Prelude.{◌≡◌, ◌<◌, ◌≤◌, ◌^◌, [], ◌∷◌, All, IfOk, OnOk};
ghost use Rattle.meaning_tree.specs.Laid.{IsLaid};
ghost use Rattle.meaning_tree.specs.Nodes.{end_of, with_node};

use c_tree::{Handle, Node, Unit};
use meaning_tree::runs_are_laid;
use node_surroundings::{Around, Surrounding, Want, surroundings_of};
use sparse_model::{NameId, NodeKind, Role};
use std::alloc::{AllocError, Global};
use std::test::Fail;
use tag_list::TagList;

fn add(unit: &mut Unit, kind: NodeKind, children: TagList) -> Result<(), AllocError>
    requires { All (λ child. (unit.old.first ≤ child.0) × (child.0 < end_of unit.old)) children }
    ensures { OnOk result (unit.new
        ≡ with_node unit.old (record { kind = kind; token = 0; name = record { 0 = 0 }; number = 0; children = children })) }
{
    let node = Node {
        kind,
        token: 0,
        name: NameId(0),
        number: 0,
        children,
    };
    match unit.add(node) {
        Ok(_) => Ok(()),
        Err(_) => Err(AllocError),
    }
}

fn one_part(alloc: Global, part: Handle) -> Result<TagList, AllocError>
    requires { part < 2 ^ 30 }
    ensures { IfOk result (λ parts. parts ≡ (part, 0) ∷ []) }
{
    let mut parts = TagList::new(alloc);
    parts.push(part, Role::Evaluated.tag())?;
    Ok(parts)
}

fn two_parts(alloc: Global, left: Handle, right: Handle) -> Result<TagList, AllocError>
    requires left { left < 2 ^ 30 }
    requires right { right < 2 ^ 30 }
    ensures { IfOk result (λ parts. parts ≡ (left, 0) ∷ (right, 0) ∷ []) }
{
    let mut parts = TagList::new(alloc);
    parts.push(left, Role::Evaluated.tag())?;
    parts.push(right, Role::Evaluated.tag())?;
    Ok(parts)
}

// The nodes are p, u, the assignment, the statement and the body.
fn small_unit(alloc: Global) -> Result<Unit, AllocError>
    ensures first { IfOk result (λ unit. unit.first ≡ 0) }
    ensures laid { IfOk result (λ unit. IsLaid unit) }
{
    runs_are_laid::<NameId>();
    let sides = two_parts(alloc, 0, 1)?;
    let expression = one_part(alloc, 2)?;
    let statement = one_part(alloc, 3)?;
    let mut unit = Unit::new(alloc);
    add(&mut unit, NodeKind::Name, TagList::new(alloc))?;
    add(&mut unit, NodeKind::Name, TagList::new(alloc))?;
    add(&mut unit, NodeKind::Assignment, sides)?;
    add(&mut unit, NodeKind::ExpressionStatement, expression)?;
    add(&mut unit, NodeKind::CompoundStatement, statement)?;
    Ok(unit)
}

#[test]
fn the_left_side_is_stored_to(rt: HostRuntime) -> Result<(), Fail> {
    let unit = small_unit(rt.alloc())?;
    let surroundings = surroundings_of(rt.alloc(), &unit)?;
    assert_eq!(rt; surroundings.len(), 5);
    let cases = [
        (2, 0, Want::ForStore),
        (2, 1, Want::ForValue),
        (3, 0, Want::ForValue),
        (4, 0, Want::ForEffect),
        (4, 0, Want::ForNothing),
    ];
    for (handle, (parent, place, want)) in cases.into_iter().enumerate() {
        assert!(rt; handle < surroundings.len());
        let around = Around {
            function: None,
            scope: 4,
        };
        let expected = Surrounding {
            parent,
            place,
            want,
            is_evaluated: true,
            around,
        };
        assert_eq!(rt; surroundings.get(handle as u32), expected, "node {handle}");
    }
    Ok(())
}
