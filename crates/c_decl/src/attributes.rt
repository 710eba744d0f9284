// Lists of attributes, and the nodes of what their words mean: tokens between parentheses arrive, and nodes leave, or the
// error of a whole list. What a word means is asked of `c_attrs`; what the attributes are of isn't known here.
ghost use Rattle.std.specs.Prelude.{◌≡◌, ◌+◌, [], IfErr, IsSome, None, OnOk, Some, drop};
ghost use Rattle.vocabulary.specs.declared.action.Action.TheVariants.{AppendAttribute, AppendLeadingAttributes, MakeAttributeList, MakeParenthesizedAttributes};
ghost use Rattle.vocabulary.specs.declared.error_kind.ErrorKind.TheVariants.{BadAttribute};
ghost use Rattle.vocabulary.specs.declared.node_kind.NodeKind.TheVariants.{AddressSpaceAttribute};
ghost use Rattle.vocabulary.specs.declared.production_item.ProductionItem.TheVariants.{Do};
ghost use Rattle.meaning_attributes.specs.Attributes.{no_attributes};
ghost use Rattle.meaning_attributes.specs.Reading.{Refusal, attributes_read};
ghost use Rattle.meaning_tree.specs.Trees.{NoParts, Node};
ghost use Rattle.meaning_grammar.specs.Sorts.{AList, effect};
ghost use Rattle.meaning_derivation.specs.Values.{named_tree, sort_of, sorts_of, token_of, value_at};
ghost use Rattle.meaning_derivation.specs.State.{Goes, IsError, Refuses};
ghost use Rattle.meaning_derivation.specs.Attributes.{attribute_appended, item_appended, kind_of_flag, list_refused, list_start, listed_tokens, space_tree};
ghost use Rattle.meaning_derivation.specs.Actions.{act};
ghost use Rattle.c_tokens.specs.Seen.{text_of};
ghost use Rattle.c_attrs.specs.Parts.{refusal_in};
ghost use Rattle.c_attrs.specs.Seen.{attribute_seen, fault_telling, flag_seen, space_seen};
ghost use Rattle.parse_state.specs.Seen.{state_of};
ghost use Rattle.parse_state.specs.Sources.{IsCovered, made_tree};
ghost use Rattle.parse_state.specs.Steps.{IsToldBy};
ghost use Rattle.c_decl.specs.Attributes.{IsRefusal};

use crate::declarators::make_listed;
use crate::numbers::{append_context, token_behind};
use c_attrs::{
    AttrFault, Attribute, Flag, in_parentheses, length_to_inside, list_refusal, read_item,
};
use parse_state::{ActionFault, ParseState, Place, Row, Shape, Source};
use sparse_model::{NameId, Space};
use vocabulary::{ErrorKind, LimitKind, NodeKind, Role};

/// The node of a list of attributes. It is refused at the first word whose item is bad, and where a context passes the limit of
/// a step, which goes first.
pub fn make_attribute_list(state: &mut ParseState<'_>) -> Result<(), ActionFault>
    requires finds { IsSome (effect (Do MakeAttributeList) (sorts_of (state_of state.old).values)) }
    ensures goes { OnOk result (act MakeAttributeList (state_of state.old) ≡ Goes (state_of state.new)) }
    ensures told { IfErr result (IsToldBy (act MakeAttributeList (state_of state.old))) }
    ensures names { state.new.names ≡ state.old.names }
{
    refuse_bad_list(state)?;
    let token = state.token(1);
    let behind = state.next_token();
    state.make(&Shape {
        takes: 2,
        kind: NodeKind::AttributeList,
        token,
        name: None,
        number: u64::from(behind),
        sources: &[Source::AllTrees(0)],
    })
}

// Why the list is refused whose word stands below the top, if it is. A list of 2^32 tokens is want of memory.
fn refuse_bad_list(state: &ParseState<'_>) -> Result<(), ActionFault>
    ensures good { OnOk result (refusal_in (attributes_read no_attributes (listed_tokens (state_of state.now) (value_at (state_of state.now).values 1))) ≡ None) }
    ensures told { IfErr result (IsRefusal (token_of (value_at (state_of state.now).values 1)) (list_start (state_of state.now) (value_at (state_of state.now).values 1)) (refusal_in (attributes_read no_attributes (listed_tokens (state_of state.now) (value_at (state_of state.now).values 1))))) }
{
    let tokens = state.tokens_from(1);
    let inside = in_parentheses(tokens);
    let list = in_parentheses(inside);
    if list.len() > u32::MAX as usize {
        return Err(ActionFault::Memory);
    }
    let Some(fault) = list_refusal(state.names(), list) else {
        return Ok(());
    };
    let word = state.token(1);
    let behind = token_behind(word, length_to_inside(tokens))?;
    let start = token_behind(behind, length_to_inside(inside))?;
    Err(told(fault, word, start))
}

// What is told of a list at this token, whose first token has this index.
fn told(fault: AttrFault, token: u32, start: u32) -> ActionFault
    ensures { (refusal : Refusal) → fault ≡ fault_telling refusal → IsToldBy (list_refused token start refusal) result }
{
    match fault {
        AttrFault::BadSpace(index) | AttrFault::BadContext(index) | AttrFault::BadAlign(index) => {
            bad_word(start, index)
        }
        AttrFault::StepLimit => ActionFault::Limit(LimitKind::ContextStep, token),
        AttrFault::Memory => ActionFault::Memory,
    }
}

// The word of a bad item.
fn bad_word(start: u32, index: u32) -> ActionFault
    ensures { IsToldBy (Refuses (IsError BadAttribute) (start + index)) result }
{
    match start.checked_add(index) {
        Some(token) => ActionFault::Refused(ErrorKind::BadAttribute, token),
        None => ActionFault::Memory,
    }
}

/// What an item means in the place of its word, at the end of the list below it.
pub fn append_attribute(state: &mut ParseState<'_>) -> Result<(), ActionFault>
    requires finds { IsSome (effect (Do AppendAttribute) (sorts_of (state_of state.old).values)) }
    ensures goes { OnOk result (act AppendAttribute (state_of state.old) ≡ Goes (state_of state.new)) }
    ensures told { IfErr result (IsToldBy (act AppendAttribute (state_of state.old))) }
    ensures names { state.new.names ≡ state.old.names }
{
    match read_item(state.names(), state.tokens_from(0)) {
        Some(attribute) => append_read(state, attribute),
        None => {
            state.drop_top();
            Ok(())
        }
    }
}

// The node of an attribute that was read.
fn append_read(state: &mut ParseState<'_>, attribute: Attribute) -> Result<(), ActionFault>
    requires finds { IsSome (effect (Do AppendAttribute) (sorts_of (state_of state.old).values)) }
    ensures goes { OnOk result (item_appended (state_of state.old) (value_at (state_of state.old).values 0) (Some (attribute_seen state.old.names attribute)) ≡ Goes (state_of state.new)) }
    ensures told { IfErr result (IsToldBy (item_appended (state_of state.old) (value_at (state_of state.old).values 0) (Some (attribute_seen state.old.names attribute)))) }
    ensures names { state.new.names ≡ state.old.names }
{
    match attribute {
        Attribute::Space(space) => append_space(state, space),
        Attribute::Context(_) => append_context(state),
        Attribute::Align(align) => append_node(state, NodeKind::AlignedAttribute, u64::from(align)),
        Attribute::Flag(flag) => append_node(state, kind_of_flag(flag), 0),
    }
}

fn kind_of_flag(flag: Flag) -> NodeKind
    ensures { result ≡ kind_of_flag (flag_seen flag) }
{
    match flag {
        Flag::Noderef => NodeKind::NoderefAttribute,
        Flag::Bitwise => NodeKind::BitwiseAttribute,
        Flag::Force => NodeKind::ForceAttribute,
        Flag::Packed => NodeKind::PackedAttribute,
        Flag::Noreturn => NodeKind::NoreturnAttribute,
    }
}

// An address space, by its name or its number.
fn append_space(state: &mut ParseState<'_>, space: Space) -> Result<(), ActionFault>
    requires finds { IsSome (effect (Do AppendAttribute) (sorts_of (state_of state.old).values)) }
    ensures goes { OnOk result (attribute_appended (state_of state.old) 1 (space_tree (token_of (value_at (state_of state.old).values 0)) (space_seen state.old.names space)) ≡ Goes (state_of state.new)) }
    ensures told { IfErr result (IsToldBy (attribute_appended (state_of state.old) 1 (space_tree (token_of (value_at (state_of state.old).values 0)) (space_seen state.old.names space)))) }
    ensures names { state.new.names ≡ state.old.names }
{
    match space {
        Space::None => append_node(state, NodeKind::AddressSpaceAttribute, 0),
        Space::Number(number) => append_node(
            state,
            NodeKind::AddressSpaceAttribute,
            u64::from(number),
        ),
        Space::Named(name) => append_named(state, name),
    }
}

// A space with this name.
fn append_named(state: &mut ParseState<'_>, name: NameId) -> Result<(), ActionFault>
    requires finds { IsSome (effect (Do AppendAttribute) (sorts_of (state_of state.old).values)) }
    ensures goes { OnOk result (attribute_appended (state_of state.old) 1 (named_tree AddressSpaceAttribute (token_of (value_at (state_of state.old).values 0)) (text_of state.old.names name) NoParts) ≡ Goes (state_of state.new)) }
    ensures told { IfErr result (IsToldBy (attribute_appended (state_of state.old) 1 (named_tree AddressSpaceAttribute (token_of (value_at (state_of state.old).values 0)) (text_of state.old.names name) NoParts))) }
    ensures names { state.new.names ≡ state.old.names }
{
    let token = state.token(0);
    state.push_spelled(token, name)?;
    append_made(
        state,
        &Shape {
            takes: 2,
            kind: NodeKind::AddressSpaceAttribute,
            token,
            name: Some(0),
            number: 0,
            sources: &[],
        },
    )
}

// A node without parts, with this number.
fn append_node(state: &mut ParseState<'_>, kind: NodeKind, number: u64) -> Result<(), ActionFault>
    requires finds { IsSome (effect (Do AppendAttribute) (sorts_of (state_of state.old).values)) }
    ensures goes { OnOk result (attribute_appended (state_of state.old) 1 (Node kind (token_of (value_at (state_of state.old).values 0)) [] number NoParts) ≡ Goes (state_of state.new)) }
    ensures told { IfErr result (IsToldBy (attribute_appended (state_of state.old) 1 (Node kind (token_of (value_at (state_of state.old).values 0)) [] number NoParts))) }
    ensures names { state.new.names ≡ state.old.names }
{
    let token = state.token(0);
    append_made(
        state,
        &Shape {
            takes: 1,
            kind,
            token,
            name: None,
            number,
            sources: &[],
        },
    )
}

/// A node of this shape, at the end of the list below what it takes.
pub(crate) fn append_made(state: &mut ParseState<'_>, shape: &Shape<'_>) -> Result<(), ActionFault>
    requires covers { IsCovered (state_of state.old).values shape.now.takes shape.now.sources.now }
    requires list { sort_of (value_at (drop shape.now.takes (state_of state.old).values) 0) ≡ AList }
    ensures goes { OnOk result (attribute_appended (state_of state.old) shape.now.takes (made_tree shape.now (state_of state.old).values) ≡ Goes (state_of state.new)) }
    ensures told { IfErr result (IsToldBy (attribute_appended (state_of state.old) shape.now.takes (made_tree shape.now (state_of state.old).values))) }
    ensures names { state.new.names ≡ state.old.names }
{
    state.make(shape)?;
    state.collect(
        2,
        &[Source::AllTrees(1), Source::OneTree(Role::TypePart, 0)],
    )?;
    Ok(())
}

/// The attributes before a further declarator, as one node behind the declarators before it, if there are any.
pub fn append_leading_attributes(state: &mut ParseState<'_>) -> Result<(), ActionFault>
    requires finds { IsSome (effect (Do AppendLeadingAttributes) (sorts_of (state_of state.old).values)) }
    ensures goes { OnOk result (act AppendLeadingAttributes (state_of state.old) ≡ Goes (state_of state.new)) }
    ensures told { IfErr result (IsToldBy (act AppendLeadingAttributes (state_of state.old))) }
    ensures names { state.new.names ≡ state.old.names }
{
    if state.part_count(0) == 0 {
        state.collect(2, &[Source::AllTrees(1), Source::AllTrees(0)])?;
        return Ok(());
    }
    let token = state.first_tree_token(0);
    state.make(&Shape {
        takes: 1,
        kind: NodeKind::LeadingAttributes,
        token,
        name: None,
        number: 0,
        sources: &[Source::AllTrees(0)],
    })?;
    state.collect(
        2,
        &[Source::AllTrees(1), Source::OneTree(Role::TypePart, 0)],
    )?;
    Ok(())
}

/// The attributes behind a parenthesis of a declarator, as one node in a list, which is empty where there are none.
pub fn make_parenthesized_attributes(state: &mut ParseState<'_>) -> Result<(), ActionFault>
    requires finds { IsSome (effect (Do MakeParenthesizedAttributes) (sorts_of (state_of state.old).values)) }
    ensures goes { OnOk result (act MakeParenthesizedAttributes (state_of state.old) ≡ Goes (state_of state.new)) }
    ensures told { IfErr result (IsToldBy (act MakeParenthesizedAttributes (state_of state.old))) }
    ensures names { state.new.names ≡ state.old.names }
{
    if state.part_count(0) > 0 {
        return make_listed(
            state,
            &Row {
                takes: 2,
                kind: NodeKind::ParenthesizedAttributes,
                place: Place::AtWord(1),
                name: None,
                number: None,
                sources: &[Source::AllTrees(0)],
            },
        );
    }
    state.collect(2, &[Source::AllTrees(0)])?;
    Ok(())
}
