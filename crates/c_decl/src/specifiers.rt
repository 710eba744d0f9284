// Specifiers in a row (C11 6.7 p1): their list arrives, and their node leaves, with the number of their storage class. What is
// wrong with them is told when the token behind them is taken. The declarators behind them aren't known here.
ghost use Rattle.std.specs.Prelude.{◌≡◌, IfErr, IsSome, OnOk};
ghost use Rattle.vocabulary.specs.declared.action.Action.TheVariants.{MakeBlockSpecifiers, MakeFileSpecifiers, MakeMemberSpecifiers, MakeParameterSpecifiers, MakeTypeNameSpecifiers, RequireType, RequireTypeOrAttributes};
ghost use Rattle.vocabulary.specs.declared.production_item.ProductionItem.TheVariants.{Do};
ghost use Rattle.meaning_grammar.specs.Sorts.{effect};
ghost use Rattle.meaning_derivation.specs.Values.{sorts_of, value_at};
ghost use Rattle.meaning_derivation.specs.State.{Goes, made};
ghost use Rattle.meaning_derivation.specs.Storage.{specifiers_tree};
ghost use Rattle.meaning_derivation.specs.Actions.{act};
ghost use Rattle.parse_state.specs.Seen.{state_of};
ghost use Rattle.parse_state.specs.Steps.{IsToldBy};

use parse_state::{ActionFault, ParseState, Shape, Source};
use vocabulary::{ErrorKind, NodeKind};

// The node of the specifiers in the list on top.
fn make_specifiers(state: &mut ParseState<'_>) -> Result<(), ActionFault>
    requires finds { IsSome (effect (Do MakeBlockSpecifiers) (sorts_of (state_of state.old).values)) }
    ensures goes { OnOk result (made (state_of state.old) 2 (specifiers_tree (value_at (state_of state.old).values 1) (value_at (state_of state.old).values 0)) ≡ Goes (state_of state.new)) }
    ensures told { IfErr result (IsToldBy (made (state_of state.old) 2 (specifiers_tree (value_at (state_of state.old).values 1) (value_at (state_of state.old).values 0)))) }
    ensures names { state.new.names ≡ state.old.names }
{
    let token = state.token(1);
    let class = state.storage_class(0);
    state.make(&Shape {
        takes: 2,
        kind: NodeKind::Specifiers,
        token,
        name: None,
        number: class.number(),
        sources: &[Source::AllTrees(0)],
    })
}

/// The specifiers of a declaration at file scope. No list of an earlier declaration is its function's.
pub fn make_file_specifiers(state: &mut ParseState<'_>) -> Result<(), ActionFault>
    requires finds { IsSome (effect (Do MakeFileSpecifiers) (sorts_of (state_of state.old).values)) }
    ensures goes { OnOk result (act MakeFileSpecifiers (state_of state.old) ≡ Goes (state_of state.new)) }
    ensures told { IfErr result (IsToldBy (act MakeFileSpecifiers (state_of state.old))) }
    ensures names { state.new.names ≡ state.old.names }
{
    let token = state.token(1);
    let is_bad = state.specified(0).is_bad_in_file();
    state.forget_closed();
    state.hold_where(is_bad, ErrorKind::BadDeclaration, token);
    make_specifiers(state)
}

/// Those of a declaration in a block.
pub fn make_block_specifiers(state: &mut ParseState<'_>) -> Result<(), ActionFault>
    requires finds { IsSome (effect (Do MakeBlockSpecifiers) (sorts_of (state_of state.old).values)) }
    ensures goes { OnOk result (act MakeBlockSpecifiers (state_of state.old) ≡ Goes (state_of state.new)) }
    ensures told { IfErr result (IsToldBy (act MakeBlockSpecifiers (state_of state.old))) }
    ensures names { state.new.names ≡ state.old.names }
{
    let token = state.token(1);
    let is_bad = state.specified(0).is_bad_in_block();
    state.hold_where(is_bad, ErrorKind::BadDeclaration, token);
    make_specifiers(state)
}

/// Those of a member.
pub fn make_member_specifiers(state: &mut ParseState<'_>) -> Result<(), ActionFault>
    requires finds { IsSome (effect (Do MakeMemberSpecifiers) (sorts_of (state_of state.old).values)) }
    ensures goes { OnOk result (act MakeMemberSpecifiers (state_of state.old) ≡ Goes (state_of state.new)) }
    ensures told { IfErr result (IsToldBy (act MakeMemberSpecifiers (state_of state.old))) }
    ensures names { state.new.names ≡ state.old.names }
{
    let token = state.token(1);
    let is_bad = state.specified(0).is_bad_member();
    state.hold_where(is_bad, ErrorKind::BadDeclaration, token);
    make_specifiers(state)
}

/// Those of a type name.
pub fn make_type_name_specifiers(state: &mut ParseState<'_>) -> Result<(), ActionFault>
    requires finds { IsSome (effect (Do MakeTypeNameSpecifiers) (sorts_of (state_of state.old).values)) }
    ensures goes { OnOk result (act MakeTypeNameSpecifiers (state_of state.old) ≡ Goes (state_of state.new)) }
    ensures told { IfErr result (IsToldBy (act MakeTypeNameSpecifiers (state_of state.old))) }
    ensures names { state.new.names ≡ state.old.names }
{
    let token = state.token(1);
    let is_bad = state.specified(0).is_bad_member();
    state.hold_where(is_bad, ErrorKind::BadDeclaration, token);
    make_specifiers(state)
}

/// Those of a parameter, which has a type.
pub fn make_parameter_specifiers(state: &mut ParseState<'_>) -> Result<(), ActionFault>
    requires finds { IsSome (effect (Do MakeParameterSpecifiers) (sorts_of (state_of state.old).values)) }
    ensures goes { OnOk result (act MakeParameterSpecifiers (state_of state.old) ≡ Goes (state_of state.new)) }
    ensures told { IfErr result (IsToldBy (act MakeParameterSpecifiers (state_of state.old))) }
    ensures names { state.new.names ≡ state.old.names }
{
    let token = state.token(1);
    let specified = state.specified(0);
    state.hold_where(
        specified.is_refused_parameter(),
        specified.parameter_error(),
        token,
    );
    make_specifiers(state)
}

/// Specifiers before a declarator have a type (6.7.2 p2).
pub fn require_type(state: &mut ParseState<'_>)
    ensures goes { act RequireType (state_of state.old) ≡ Goes (state_of state.new) }
    ensures names { state.new.names ≡ state.old.names }
{
    let token = state.stands_at(0);
    let is_bad = state.specified_tree(0).lacks_type();
    state.hold_where(is_bad, ErrorKind::BadDeclaration, token);
}

/// Those that stand alone have one too, or are attributes.
pub fn require_type_or_attributes(state: &mut ParseState<'_>)
    ensures goes { act RequireTypeOrAttributes (state_of state.old) ≡ Goes (state_of state.new) }
    ensures names { state.new.names ≡ state.old.names }
{
    let token = state.stands_at(0);
    let is_bad = state.specified_tree(0).lacks_type_or_attributes();
    state.hold_where(is_bad, ErrorKind::BadDeclaration, token);
}
