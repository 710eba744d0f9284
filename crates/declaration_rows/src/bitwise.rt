// Where `bitwise` stands at a type that is no integer (our extension of C11 6.7.6): lists of attributes in, the least that they
// break out, each at its word. What makes the type isn't known here.
ghost use Rattle.std.specs.Prelude.{◌≡◌, ◌+◌, ◌++◌, [], IfSome, if◌then◌else◌, option_map};
ghost use Rattle.vocabulary.specs.declared.error_kind.ErrorKind.TheVariants.{BitwiseOnNoInteger};
ghost use Rattle.meaning_operands.specs.Operands as operands;
ghost use Rattle.meaning_rules.specs.Rules.{least_broken, lesser};
ghost use Rattle.meaning_typing.specs.Declarators.{leading_lists, lists_before, lists_behind};
ghost use Rattle.meaning_typing.specs.DeclarationRows as rows;
ghost use Rattle.meaning_typing.specs.Rows.{breaks_at};
ghost use Rattle.meaning_typing.specs.Specifiers.{attributes_among, attributes_of};
ghost use Rattle.meaning_typing.specs.Tags as meaning;
ghost use Rattle.meaning_typing.specs.Units.{children_at, kind_at as kind_of, node_at as node_of_unit};
ghost use Rattle.c_types.specs.Table.{IsTypeId, type_at};
ghost use Rattle.decl_judge.specs.Seen.{lists_from};
ghost use Rattle.decl_judge.specs.Units.{handles_of, nodes_of};
ghost use Rattle.expression_rows.specs.Rows.{broken_seen};

use c_tree::{Handle, Unit};
use c_types::Types;
use decl_judge::{attributes_at, child_at, kind_at, node_at, token_at};
use expression_rows::{Broken, broken_at, lesser};
use sparse_model::{ErrorKind, NodeKind, TypeId};
use tag_list::TagList;

fn is_bitwise_word(kind: NodeKind) -> bool
    ensures { result ≡ meaning.is_bitwise_word kind }
{
    match kind {
        NodeKind::BitwiseAttribute => true,
        _ => false,
    }
}

fn word_broken(unit: &Unit, attribute: Handle) -> Option<Broken>
    requires { unit.now.first ≡ 0 }
    ensures { option_map broken_seen result ≡ least_broken (if meaning.is_bitwise_word (kind_of (nodes_of unit.now) attribute) then breaks_at BitwiseOnNoInteger (node_of_unit (nodes_of unit.now) attribute).token else []) }
{
    if is_bitwise_word(kind_at(unit, attribute)) {
        broken_at(ErrorKind::BitwiseOnNoInteger, token_at(unit, attribute))
    } else {
        None
    }
}

// The least of this and of what these attributes break at a type that is no integer.
fn words_among(unit: &Unit, least: Option<Broken>, attributes: &TagList) -> Option<Broken>
    requires { unit.now.first ≡ 0 }
    ensures { option_map broken_seen result ≡ lesser (option_map broken_seen least) (least_broken (meaning.bitwise_words (nodes_of unit.now) (handles_of attributes.now))) }
{
    let mut least = least;
    for (attribute, _) in attributes.iter() {
        least = lesser(least, word_broken(unit, attribute));
    }
    least
}

// The same of those of a node, if it is a list of attributes.
fn words_of_list(unit: &Unit, least: Option<Broken>, handle: Handle) -> Option<Broken>
    requires { unit.now.first ≡ 0 }
    ensures { option_map broken_seen result ≡ lesser (option_map broken_seen least) (least_broken (meaning.bitwise_words (nodes_of unit.now) (attributes_of (kind_of (nodes_of unit.now) handle) (children_at (nodes_of unit.now) handle)))) }
{
    match attributes_at(unit, handle) {
        Some(attributes) => words_among(unit, least, attributes),
        None => least,
    }
}

// The same of those of all lists among these children.
fn words_of_lists(unit: &Unit, least: Option<Broken>, children: &TagList) -> Option<Broken>
    requires { unit.now.first ≡ 0 }
    ensures { option_map broken_seen result ≡ lesser (option_map broken_seen least) (least_broken (meaning.bitwise_words (nodes_of unit.now) (attributes_among (nodes_of unit.now) (handles_of children.now)))) }
{
    let mut least = least;
    for (child, _) in children.iter() {
        least = words_of_list(unit, least, child);
    }
    least
}

// Those of all lists among the children of a node.
fn words_below(unit: &Unit, handle: Handle) -> Option<Broken>
    requires { unit.now.first ≡ 0 }
    ensures { option_map broken_seen result ≡ least_broken (meaning.bitwise_words (nodes_of unit.now) (attributes_among (nodes_of unit.now) (children_at (nodes_of unit.now) handle))) }
{
    match node_at(unit, handle) {
        Some(node) => words_of_lists(unit, None, &node.children),
        None => None,
    }
}

/// The least that `bitwise` breaks in the lists of attributes below a node, which are said of this type.
pub fn bitwise_broken(unit: &Unit, types: &Types, handle: Handle, of: TypeId) -> Option<Broken>
    requires whole { unit.now.first ≡ 0 }
    requires of { IsTypeId types.now of }
    ensures { option_map broken_seen result ≡ least_broken (meaning.bitwise_broken (nodes_of unit.now) (attributes_among (nodes_of unit.now) (children_at (nodes_of unit.now) handle)) (type_at types.now of)) }
{
    if is_integer(types, of) {
        None
    } else {
        words_below(unit, handle)
    }
}

#[tactic(auto, using(crate::proofs::TypeLemmas::integer_told))]
fn is_integer(types: &Types, of: TypeId) -> bool
    requires { IsTypeId types.now of }
    ensures { result ≡ operands.is_integer (type_at types.now of) }
{
    types.is_integer(of)
}

// Those of the lists that stand one behind the other, directly behind this place.
fn words_after(unit: &Unit, least: Option<Broken>, children: &TagList, place: u32) -> Option<Broken>
    requires { unit.now.first ≡ 0 }
    ensures { option_map broken_seen result ≡ lesser (option_map broken_seen least) (least_broken (meaning.bitwise_words (nodes_of unit.now) (attributes_among (nodes_of unit.now) (lists_from (nodes_of unit.now) children.now (place + 1))))) }
{
    let mut least = least;
    for next in place.saturating_add(1)..children.len() {
        match attributes_at(unit, children.get(next).0) {
            Some(attributes) => least = words_among(unit, least, attributes),
            None => return least,
        }
    }
    least
}

fn words_behind(unit: &Unit, least: Option<Broken>, parent: Handle, place: u32) -> Option<Broken>
    requires { unit.now.first ≡ 0 }
    ensures { option_map broken_seen result ≡ lesser (option_map broken_seen least) (least_broken (meaning.bitwise_words (nodes_of unit.now) (attributes_among (nodes_of unit.now) (lists_behind (nodes_of unit.now) parent place)))) }
{
    match node_at(unit, parent) {
        Some(node) => words_after(unit, least, &node.children, place),
        None => least,
    }
}

// Those of a node that stands before a declarator behind the first one.
fn leading_words(unit: &Unit, handle: Handle) -> Option<Broken>
    requires { unit.now.first ≡ 0 }
    ensures { option_map broken_seen result ≡ least_broken (meaning.bitwise_words (nodes_of unit.now) (attributes_among (nodes_of unit.now) (leading_lists (kind_of (nodes_of unit.now) handle) (children_at (nodes_of unit.now) handle)))) }
{
    match kind_at(unit, handle) {
        NodeKind::LeadingAttributes => words_below(unit, handle),
        _ => None,
    }
}

// Those of the lists before a declarator at this place and directly behind it.
fn own_words(unit: &Unit, parent: Handle, place: u32) -> Option<Broken>
    requires { unit.now.first ≡ 0 }
    ensures { option_map broken_seen result ≡ least_broken (meaning.bitwise_words (nodes_of unit.now) (attributes_among (nodes_of unit.now) (lists_before (nodes_of unit.now) parent place ++ lists_behind (nodes_of unit.now) parent place))) }
{
    let before = child_at(unit, parent, place.saturating_sub(1));
    words_behind(unit, leading_words(unit, before), parent, place)
}

fn own_broken(unit: &Unit, types: &Types, parent: Handle, place: u32, of: TypeId) -> Option<Broken>
    requires whole { unit.now.first ≡ 0 }
    requires of { IsTypeId types.now of }
    ensures { option_map broken_seen result ≡ least_broken (meaning.bitwise_broken (nodes_of unit.now) (attributes_among (nodes_of unit.now) (lists_before (nodes_of unit.now) parent place ++ lists_behind (nodes_of unit.now) parent place)) (type_at types.now of)) }
{
    if is_integer(types, of) {
        None
    } else {
        own_words(unit, parent, place)
    }
}

/// The least that `bitwise` breaks before and behind the declarator at this place, whose parts make this type, if they make one.
pub fn own_bitwise_broken(
    unit: &Unit,
    types: &Types,
    parent: Handle,
    place: u32,
    made: Option<TypeId>,
) -> Option<Broken>
    requires whole { unit.now.first ≡ 0 }
    requires made { IfSome made (IsTypeId types.now) }
    ensures { option_map broken_seen result ≡ least_broken (rows.own_bitwise_broken (nodes_of unit.now) parent place (option_map (type_at types.now) made)) }
{
    match made {
        Some(of) => own_broken(unit, types, parent, place, of),
        None => None,
    }
}
