// What a node asks of a part, by its kind and by the place and the role of the part.
ghost use Rattle.std.specs.Prelude.{◌≡◌};
ghost use Rattle.vocabulary.specs.declared.operator.Operator.{Operator};
ghost use Rattle.vocabulary.specs.declared.role.Role.TheVariants as parts;
ghost use Rattle.vocabulary.specs.Roles as roles;
ghost use Rattle.meaning_typing.specs.Operations as operations;
ghost use Rattle.meaning_typing.specs.Surroundings as meaning;
ghost use Rattle.node_surroundings.specs.Seen.{around_seen, asking_seen, operation_seen, surrounding_seen, want_seen};

use crate::operation::{Operation, operation_of};
use crate::surrounding::{Around, Surrounding, Want};
use c_tree::Handle;
use sparse_model::{NodeKind, Role};

// What a node asks of its parts, by their places.
#[derive(Clone, Copy)]
enum Asking {
    Values,
    Places,
    Effects,
    ValueFirst,
    ValueLast,
    StoreFirst,
    ThreeValues,
    OneValue,
    ByOperation,
}

/// The role that a tag keeps.
pub fn role_of(tag: u8) -> Role
    ensures { result ≡ roles.role_of tag }
{
    match tag {
        0 => Role::Evaluated,
        1 => Role::Condition,
        2 => Role::TypePart,
        _ => Role::Unevaluated,
    }
}

// The left side of an assignment is stored to (C11 6.5.16 p3).
fn store_first(place: u32) -> Want
    ensures simple { (operation : operations.Operation) → want_seen result ≡ meaning.wanted_so meaning.AsksStoreFirst operation place }
    ensures compound { (operator : Operator) → want_seen result ≡ meaning.wanted_by (operations.CompoundOperation operator) place }
{
    match place {
        0 => Want::ForStore,
        _ => Want::ForValue,
    }
}

// A condition, and behind it what is done by it.
fn value_first(place: u32) -> Want
    ensures { (operation : operations.Operation) → want_seen result ≡ meaning.wanted_so meaning.AsksValueFirst operation place }
{
    match place {
        0 => Want::ForValue,
        _ => Want::ForEffect,
    }
}

// A body, and behind it the condition.
fn value_last(place: u32) -> Want
    ensures { (operation : operations.Operation) → want_seen result ≡ meaning.wanted_so meaning.AsksValueLast operation place }
{
    match place {
        0 => Want::ForEffect,
        _ => Want::ForValue,
    }
}

// The parts of `for`, and its body.
fn three_values(place: u32) -> Want
    ensures { (operation : operations.Operation) → want_seen result ≡ meaning.wanted_so meaning.AsksThreeValues operation place }
{
    if place < 3 {
        Want::ForValue
    } else {
        Want::ForEffect
    }
}

// A condition, and what is only written behind it.
fn one_value(place: u32) -> Want
    ensures { (operation : operations.Operation) → want_seen result ≡ meaning.wanted_so meaning.AsksOneValue operation place }
{
    match place {
        0 => Want::ForValue,
        _ => Want::ForNothing,
    }
}

// What is wanted of the operand at this place.
fn wanted_by(operation: Operation, place: u32) -> Want
    ensures { want_seen result ≡ meaning.wanted_by (operation_seen operation) place }
{
    match operation {
        Operation::StepBehind(_) => Want::ForStore,
        Operation::StepBefore(_) => Want::ForStore,
        Operation::Unary(_) => Want::ForValue,
        Operation::Not => Want::ForValue,
        Operation::Size => Want::ForPlace,
        Operation::Cast => Want::ForValue,
        Operation::Binary(_) => Want::ForValue,
        Operation::Logical(_) => Want::ForValue,
        Operation::Conditional => Want::ForValue,
        Operation::Compound(_) => store_first(place),
        Operation::Comma => Want::ForValue,
        Operation::Expect => Want::ForValue,
        Operation::Statements => Want::ForEffect,
        Operation::Nothing => Want::ForNothing,
    }
}

// What a node of this kind asks of its parts, in the order of the grammar.
fn asking_of(kind: NodeKind) -> Asking
    ensures { asking_seen result ≡ meaning.asking_of kind }
{
    match kind {
        NodeKind::Parenthesized => Asking::Places,
        NodeKind::Subscript => Asking::Values,
        NodeKind::Call => Asking::Values,
        NodeKind::Member => Asking::Places,
        NodeKind::PointerMember => Asking::Values,
        NodeKind::Address => Asking::Places,
        NodeKind::Indirection => Asking::Values,
        NodeKind::Assignment => Asking::StoreFirst,
        NodeKind::TypeofExpression => Asking::Places,
        NodeKind::ArrayDeclarator => Asking::Values,
        NodeKind::BitFieldWidth => Asking::Values,
        NodeKind::Enumerator => Asking::Values,
        NodeKind::StaticAssertion => Asking::OneValue,
        NodeKind::IndexDesignator => Asking::Values,
        NodeKind::Initializer => Asking::Values,
        NodeKind::InitializerItem => Asking::Values,
        NodeKind::FunctionDefinition => Asking::Effects,
        NodeKind::CompoundStatement => Asking::Effects,
        NodeKind::LabelStatement => Asking::Effects,
        NodeKind::CaseStatement => Asking::ValueFirst,
        NodeKind::DefaultStatement => Asking::Effects,
        NodeKind::ExpressionStatement => Asking::Values,
        NodeKind::IfStatement => Asking::ValueFirst,
        NodeKind::SwitchStatement => Asking::ValueFirst,
        NodeKind::WhileStatement => Asking::ValueFirst,
        NodeKind::DoStatement => Asking::ValueLast,
        NodeKind::ForStatement => Asking::ThreeValues,
        NodeKind::ReturnStatement => Asking::Values,
        _ => Asking::ByOperation,
    }
}

// What is wanted of the part at this place, unless that is part of a type.
fn want_of(kind: NodeKind, place: u32) -> Want
    ensures { want_seen result ≡ meaning.want_of kind place }
{
    match asking_of(kind) {
        Asking::Values => Want::ForValue,
        Asking::Places => Want::ForPlace,
        Asking::Effects => Want::ForEffect,
        Asking::ValueFirst => value_first(place),
        Asking::ValueLast => value_last(place),
        Asking::StoreFirst => store_first(place),
        Asking::ThreeValues => three_values(place),
        Asking::OneValue => one_value(place),
        Asking::ByOperation => wanted_by(operation_of(kind), place),
    }
}

// A part of a type is written only.
fn wanted(kind: NodeKind, place: u32, role: Role) -> Want
    ensures { want_seen result ≡ meaning.wanted kind place role }
{
    match role {
        Role::Evaluated => want_of(kind, place),
        Role::Condition => want_of(kind, place),
        Role::TypePart => Want::ForNothing,
        Role::Unevaluated => want_of(kind, place),
    }
}

// Whether a part in this role is evaluated where the node is (C11 6.5.3.4 p2, 6.6 p6).
fn evaluates(role: Role) -> bool
    ensures { result ≡ meaning.evaluates role }
{
    match role {
        Role::Evaluated => true,
        Role::Condition => true,
        Role::TypePart => false,
        Role::Unevaluated => false,
    }
}

// Whether a node of this kind opens a scope (C11 6.2.1 p4).
fn opens_scope(kind: NodeKind) -> bool
    ensures { result ≡ meaning.opens_scope kind }
{
    match kind {
        NodeKind::TranslationUnit => true,
        NodeKind::CompoundStatement => true,
        NodeKind::ForStatement => true,
        NodeKind::FunctionDeclarator => true,
        _ => false,
    }
}

// The function around the evaluated parts of a node: that of a body is the one whose body it is.
fn function_around_evaluated(
    kind: NodeKind,
    handle: Handle,
    outer: Option<Handle>,
) -> Option<Handle>
    ensures { result ≡ meaning.function_around kind handle parts.Evaluated outer }
{
    match kind {
        NodeKind::FunctionDefinition => Some(handle),
        _ => outer,
    }
}

// The function around a part in this role.
fn function_around(
    kind: NodeKind,
    handle: Handle,
    role: Role,
    outer: Option<Handle>,
) -> Option<Handle>
    ensures { result ≡ meaning.function_around kind handle role outer }
{
    match role {
        Role::Evaluated => function_around_evaluated(kind, handle, outer),
        Role::Condition => outer,
        Role::TypePart => outer,
        Role::Unevaluated => outer,
    }
}

// Who is around a part in this role.
fn around_parts(kind: NodeKind, handle: Handle, role: Role, around: Around) -> Around
    ensures { around_seen result ≡ meaning.around_parts kind handle role (around_seen around) }
{
    Around {
        function: function_around(kind, handle, role, around.function),
        scope: if opens_scope(kind) {
            handle
        } else {
            around.scope
        },
    }
}

/// What a node of this kind asks of the part at this place, in this role, where it stands so itself.
pub fn asked(
    kind: NodeKind,
    handle: Handle,
    place: u32,
    role: Role,
    surrounding: Surrounding,
) -> Surrounding
    ensures { surrounding_seen result ≡ meaning.asked kind handle place role (surrounding_seen surrounding) }
{
    Surrounding {
        parent: handle,
        place,
        want: wanted(kind, place, role),
        is_evaluated: surrounding.is_evaluated && evaluates(role),
        around: around_parts(kind, handle, role, surrounding.around),
    }
}
