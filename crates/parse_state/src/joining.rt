// Lists that become one in the place of the last values: behind a word that stays, or the last one turned round. What stands
// in them isn't known here.
ghost use Rattle.std.specs.Prelude.{◌≡◌, ◌≤◌, ◌∷◌, ◌++◌, [], IfOk, OnOk, drop, reverse, slice_get, take, true, vec_len};
ghost use Rattle.std.specs.List.{list_all};
ghost use Rattle.parse_state.specs.Giving.{children_in, is_small};
ghost use Rattle.parse_state.specs.Joining.{children_of, suffixes_before};
ghost use Rattle.parse_state.specs.Making.{start_of};
ghost use Rattle.parse_state.specs.declared.value.Value.TheVariants as kinds;

use crate::asking::{name_at, token_at};
use crate::children::{join, take_children};
use crate::nodes::forget;
use crate::shape::Source;
use crate::state::ParseState;
use crate::value::Value;
use sparse_model::NameId;
use std::alloc::{AllocError, Global};
use tag_list::TagList;

// Takes the last value. What is no list counts as an empty one.
fn take_list(alloc: Global, values: &mut Vec<Value>) -> TagList
    ensures list { result ≡ children_of (slice_get (reverse values.old.items) 0) }
    ensures left { values.new.items ≡ take (start_of values.old.items 1) values.old.items }
{
    match values.pop() {
        Some(Value::List(list)) => list,
        _ => TagList::new(alloc),
    }
}

// The same children, the last one first.
fn turned_round(alloc: Global, children: TagList) -> Result<TagList, AllocError>
    ensures { IfOk result (λ turned. turned ≡ reverse children) }
{
    let mut left = children;
    if left.len() < 2 {
        return Ok(left);
    }
    let mut turned = TagList::new(alloc);
    while let Some((handle, tag)) = left.pop() {
        turned.push(handle, tag)?;
    }
    Ok(turned)
}

// Puts the children of the last list, the last one first, before those of the list below it, in the place of both.
fn turn_before(alloc: Global, values: &mut Vec<Value>) -> Result<(), AllocError>
    ensures { OnOk result (values.new.items ≡ take (start_of values.old.items 2) values.old.items ++ kinds.List (suffixes_before values.old.items) ∷ []) }
{
    let suffixes = take_list(alloc, values);
    let inner = take_list(alloc, values);
    let mut children = turned_round(alloc, suffixes)?;
    join(&mut children, inner)?;
    values.push(Value::List(children))?;
    Ok(())
}

// Puts a word, and on it a list of the children that the last values give, in their place.
fn put_behind(
    alloc: Global,
    values: &mut Vec<Value>,
    from: usize,
    token: u32,
    name: NameId,
    sources: &[Source],
) -> Result<(), AllocError>
    requires within { from ≤ vec_len values.old }
    requires small { list_all is_small values.old.items ≡ true }
    ensures { OnOk result (values.new.items ≡ (take from values.old.items ++ kinds.Word token name ∷ []) ++ kinds.List (children_in (drop from values.old.items) sources.now) ∷ []) }
{
    let children = take_children(alloc, values, from, sources)?;
    values.push(Value::Word(token, name))?;
    values.push(Value::List(children))?;
    Ok(())
}

impl<'t> ParseState<'t> {
    ghost use Rattle.std.specs.Prelude.{◌≡◌, ◌∷◌, OnOk, drop};
    ghost use Rattle.meaning_derivation.specs.Values.{ListValue, value_at as value_below};
    ghost use Rattle.meaning_derivation.specs.State.{with_value, with_values};
    ghost use Rattle.meaning_derivation.specs.Lists.{suffixed};
    ghost use Rattle.parse_state.specs.Joining.{EndsInLists, word_at};
    ghost use Rattle.parse_state.specs.Seen.{state_of};
    ghost use Rattle.parse_state.specs.Sources.{IsCovered, parts_given};

    /// Puts the word so far below the top, and on it one list of the trees and the lists among the last values, in their place.
    ///
    /// Where memory runs out no value is left.
    pub fn collect_behind(
        &mut self,
        takes: usize,
        word: usize,
        sources: &[Source],
    ) -> Result<(), AllocError>
        requires covers { IsCovered (state_of self.old).values takes sources.now }
        ensures list { OnOk result (state_of self.new ≡ with_values (state_of self.old) (ListValue (parts_given (state_of self.old).values sources.now) ∷ word_at (state_of self.old).values word ∷ drop takes (state_of self.old).values)) }
        ensures names { self.new.names ≡ self.old.names }
    {
        self.names.apart();
        let token = token_at(&self.values, word);
        let name = name_at(&self.values, word);
        let from = self.values.len().saturating_sub(takes);
        let put = put_behind(self.alloc, &mut self.values, from, token, name, sources);
        if put.is_err() {
            forget(self.alloc, &mut self.values, &mut self.unit);
        }
        put
    }

    /// Puts the trees of the last list, the last one first, before those of the list below it, as one list in the place of
    /// both.
    ///
    /// Where memory runs out no value is left.
    pub fn put_suffixes(&mut self) -> Result<(), AllocError>
        requires lists { EndsInLists (state_of self.old).values }
        ensures list { OnOk result (state_of self.new ≡ with_value (state_of self.old) 2 (suffixed (value_below (state_of self.old).values 0) (value_below (state_of self.old).values 1))) }
        ensures names { self.new.names ≡ self.old.names }
    {
        let put = turn_before(self.alloc, &mut self.values);
        if put.is_err() {
            forget(self.alloc, &mut self.values, &mut self.unit);
        }
        put
    }
}
