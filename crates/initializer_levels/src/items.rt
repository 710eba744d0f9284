// The items that are left in braces, as they are kept.
ghost use Rattle.std.specs.Prelude.{◌≡◌, ◌<◌, ◌-◌, [], IfNone, IfOk, IfSome, List, length, nat_lt, true};
ghost use Rattle.meaning_typing.specs.Facts.{Fact};
ghost use Rattle.meaning_typing.specs.Units.{UnitNodes, children_at};
ghost use Rattle.meaning_initializers.specs.Items.{Item, NoItems, from_designator};
ghost use Rattle.meaning_initializers.specs.Reading.{designators_of, initializer_at, items_of};
ghost use Rattle.decl_judge.specs.Units.{handles_of, nodes_of};
ghost use Rattle.initializer_levels.specs.Items.{item_seen, items_behind, items_in, items_left, last_part, led_list, parts_count};

use c_tree::{Handle, Unit};
use decl_judge::{child_at, node_at};
use std::alloc::{AllocError, Global};
use tag_list::TagList;

/// Items that are left in braces.
#[derive(Drop)]
pub struct ItemList {
    /// The handles of their nodes, the next one last.
    pub left: Vec<Handle>,
    /// A designator stands before the next one, or before the braces that it begins.
    pub is_moved: bool,
    /// The designators of the next one were followed.
    pub is_led: bool,
}

/// The item that comes next.
#[derive(Clone, Copy)]
pub struct NextItem {
    /// The handle of its node.
    pub item: Handle,
    /// That of its initializer.
    pub initializer: Handle,
    pub is_moved: bool,
    /// It has designators that weren't followed.
    pub is_designated: bool,
}

// The handles of children.
fn listed(alloc: Global, children: &TagList) -> Result<Vec<Handle>, AllocError>
    ensures { IfOk result (λ list. list.items ≡ handles_of children.now) }
{
    let mut list = Vec::new(alloc);
    for (child, _) in children.iter() {
        list.push(child)?;
    }
    Ok(list)
}

// Those of a node.
fn children_listed(alloc: Global, unit: &Unit, handle: Handle) -> Result<Vec<Handle>, AllocError>
    requires { unit.now.first ≡ 0 }
    ensures { IfOk result (λ list. list.items ≡ children_at (nodes_of unit.now) handle) }
{
    match node_at(unit, handle) {
        Some(node) => listed(alloc, &node.children),
        None => Ok(Vec::new(alloc)),
    }
}

/// The items of braces, of which the first is moved or isn't. It takes a step for each.
#[tactic(auto, using(crate::proofs::ItemLemmas::reversed_twice))]
pub fn items_at(
    alloc: Global,
    unit: &Unit,
    handle: Handle,
    is_moved: bool,
) -> Result<ItemList, AllocError>
    requires { unit.now.first ≡ 0 }
    ensures { (facts : List Fact) → IfOk result (λ list. items_left (nodes_of unit.now) facts list ≡ items_in (nodes_of unit.now) facts is_moved (children_at (nodes_of unit.now) handle)) }
{
    let mut left = children_listed(alloc, unit, handle)?;
    left.reverse();
    Ok(ItemList {
        left,
        is_moved,
        is_led: false,
    })
}

// How many children a node has.
pub fn count_of_parts(unit: &Unit, handle: Handle) -> u32
    requires { unit.now.first ≡ 0 }
    ensures { result ≡ parts_count (nodes_of unit.now) handle }
{
    match node_at(unit, handle) {
        Some(node) => node.children.len(),
        None => 0,
    }
}

// The last child of a node.
fn last_part(unit: &Unit, handle: Handle) -> Handle
    requires { unit.now.first ≡ 0 }
    ensures { result ≡ last_part (nodes_of unit.now) handle }
{
    let count = count_of_parts(unit, handle);
    child_at(unit, handle, count.saturating_sub(1))
}

impl ItemList {
    /// The item that comes next, if there is one. It takes no memory, and a few steps.
    #[tactic(auto, using(crate::proofs::ItemLemmas::next_seen, crate::proofs::ItemLemmas::none_seen, crate::proofs::ItemLemmas::some_designators))]
    pub fn next(&self, unit: &Unit) -> Option<NextItem>
        requires { unit.now.first ≡ 0 }
        ensures some { (facts : List Fact) → IfSome result (λ next. items_left (nodes_of unit.now) facts self.now ≡ item_seen (nodes_of unit.now) facts next (items_behind (nodes_of unit.now) facts self.now)) }
        ensures designated { (facts : List Fact) → IfSome result (λ next. next.is_designated ≡ true → 0 < length (designators_of (nodes_of unit.now) facts next.item)) }
        ensures led { (facts : List Fact) → IfSome result (λ next. items_left (nodes_of unit.now) facts (led_list self.now) ≡ Item [] true (initializer_at (nodes_of unit.now) facts next.initializer) (items_behind (nodes_of unit.now) facts self.now)) }
        ensures more { IfSome result (λ next. 0 < length self.now.left.items) }
        ensures none { (facts : List Fact) → IfNone result (items_left (nodes_of unit.now) facts self.now ≡ NoItems) }
    {
        let item = *self.left.last()?;
        Some(NextItem {
            item,
            initializer: last_part(unit, item),
            is_moved: self.is_moved,
            is_designated: !self.is_led && count_of_parts(unit, item) > 1,
        })
    }

    /// Those behind the next one. It takes no memory.
    #[tactic(auto, using(crate::proofs::ItemLemmas::popped_behind))]
    pub fn behind(self) -> ItemList
        ensures behind { (nodes : UnitNodes) (facts : List Fact) → items_left nodes facts result ≡ items_behind nodes facts self }
        ensures fewer { length result.left.items ≡ length self.left.items - 1 }
    {
        let mut left = self.left;
        left.pop();
        ItemList {
            left,
            is_moved: false,
            is_led: false,
        }
    }

    /// Where the designators of the next one were followed.
    pub fn led(self) -> ItemList
        ensures { result ≡ led_list self }
    {
        ItemList {
            is_moved: true,
            is_led: true,
            ..self
        }
    }

    /// From the next one on that has a designator. It takes no memory, and a step for each that is passed over.
    #[tactic(auto, using(crate::proofs::ItemLemmas::designated_first, crate::proofs::ItemLemmas::passed_over))]
    pub fn from_designator(self, unit: &Unit) -> ItemList
        requires { unit.now.first ≡ 0 }
        ensures { (facts : List Fact) → items_left (nodes_of unit.now) facts result ≡ from_designator (items_left (nodes_of unit.now) facts self) }
    {
        let mut items = self;
        'items: while let Some(next) = items.next(unit) {
            if next.is_designated {
                return items;
            }
            items = items.behind();
        }
        items
    }
}
