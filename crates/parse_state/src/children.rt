// The values of a stack, by how far they stand below its top, and the children that they give. Sources arrive, and a list of
// children leaves. No node is made here.
ghost use Rattle.std.specs.Prelude.{◌≡◌, ◌<◌, ◌≤◌, ◌^◌, ◌∷◌, ◌++◌, [], IfOk, OnOk, drop, length, option_map, reverse, slice_get, take, true, vec_len};
ghost use Rattle.std.specs.List.{list_all};
ghost use Rattle.vocabulary.specs.Roles.{role_tag};
ghost use Rattle.parse_state.specs.Giving.{children_in, first_role, given, left_behind, is_small};

use crate::shape::Source;
use crate::value::Value;
use c_tree::Handle;
use sparse_model::NameId;
use std::alloc::{AllocError, Global};
use std::mem;
use tag_list::TagList;
use vocabulary::Role;

// How many children a node may have.
const MOST_CHILDREN: u32 = 1 << 30;

/// The value so far below the top of a stack, if there is one.
pub(crate) fn value_at(values: &[Value], depth: usize) -> Option<&Value>
    ensures { option_map (λ value. value.now) result ≡ slice_get (reverse values.now) depth }
{
    if depth < values.len() {
        Some(&values[values.len() - 1 - depth])
    } else {
        None
    }
}

/// Takes the values from this place on off a stack, and answers the children that they give: the trees in the roles that the
/// sources say, and those of the lists.
pub(crate) fn take_children(
    alloc: Global,
    values: &mut Vec<Value>,
    from: usize,
    sources: &[Source],
) -> Result<TagList, AllocError>
    requires within { from ≤ vec_len values.old }
    requires small { list_all is_small values.old.items ≡ true }
    ensures children { IfOk result (λ children. children ≡ children_in (drop from values.old.items) sources.now) }
    ensures left { OnOk result (values.new.items ≡ take from values.old.items) }
{
    let mut children = TagList::new(alloc);
    let mut rest = sources;
    for index in from..values.len() {
        let value = mem::replace(&mut values[index], Value::Word(0, NameId(0)));
        rest = put_children(&mut children, value, rest)?;
    }
    values.truncate(from);
    Ok(children)
}

// Puts the children that a value gives behind others, and answers the sources of the values behind it.
fn put_children<'s>(
    children: &mut TagList,
    value: Value,
    sources: &'s [Source],
) -> Result<&'s [Source], AllocError>
    requires small { is_small value ≡ true }
    ensures children { OnOk result (children.new ≡ children.old ++ given value sources.now) }
    ensures left { IfOk result (λ rest. rest.now ≡ left_behind value sources.now) }
{
    match value {
        Value::Word(_, _) => Ok(sources),
        Value::Tree(handle) => {
            put_child(children, handle, role_of_first(sources))?;
            Ok(behind_first(sources))
        }
        Value::List(list) => {
            join(children, list)?;
            Ok(behind_first(sources))
        }
    }
}

// The role of the first source, if it is a tree.
fn role_of_first(sources: &[Source]) -> Role
    ensures { result ≡ first_role sources.now }
{
    match sources.first() {
        Some(Source::OneTree(role, _)) => *role,
        _ => Role::Evaluated,
    }
}

fn behind_first(sources: &[Source]) -> &[Source]
    ensures { result.now ≡ drop 1 sources.now }
{
    match sources.split_first() {
        Some((_, others)) => others,
        None => sources,
    }
}

// Puts a node behind children.
fn put_child(children: &mut TagList, handle: Handle, role: Role) -> Result<(), AllocError>
    requires { handle < 2 ^ 30 }
    ensures { OnOk result (children.new ≡ children.old ++ (handle, role_tag role) ∷ []) }
{
    if children.len() >= MOST_CHILDREN {
        return Err(AllocError);
    }
    children.push(handle, role.tag())
}

/// Puts children behind others.
pub(crate) fn join(children: &mut TagList, list: TagList) -> Result<(), AllocError>
    ensures { OnOk result (children.new ≡ children.old ++ list) }
{
    if children.len() == 0 {
        *children = list;
        return Ok(());
    }
    if list.len() > MOST_CHILDREN - children.len() {
        return Err(AllocError);
    }
    children.join(list);
    Ok(())
}
