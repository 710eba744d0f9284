// What control asks of a node by its handle: what is known of all nodes in, what it asks out.
ghost use Rattle.std.specs.Prelude.{◌≡◌, ◌≤◌, ◌^◌, All, List, MatchOption, length};
ghost use Rattle.meaning_contexts.specs.Units.{constant_known, number_or_zero};
ghost use Rattle.meaning_control.specs.Nodes.{declares_function};
ghost use Rattle.meaning_statements.specs.Jumps.{switch_of};
ghost use Rattle.meaning_statements.specs.StatementRows.{number_at, switched_fact};
ghost use Rattle.meaning_typing.specs.Evaluation as typing;
ghost use Rattle.meaning_typing.specs.Facts.{fact_at};
ghost use Rattle.meaning_typing.specs.Surroundings.{Surrounding};
ghost use Rattle.meaning_typing.specs.Units.{UnitNodes};
ghost use Rattle.c_types.specs.Table.{TypeTable};
ghost use Rattle.decl_judge.specs.Units.{nodes_of};
ghost use Rattle.node_facts.specs.Facts.{IsKnownNodeFact, node_seen, nodes_seen};
ghost use Rattle.statement_judge.specs.Enclosing.{AreEnclosings};
ghost use Rattle.judged_objects.specs.Kept.{AreObjects};
ghost use Rattle.linear_code.specs.Known.{function_known};
ghost use Rattle.judged_control.specs.Judged.{function_noted, known_of};

use crate::numbers::{constant_in, number_of_label};
use c_tree::{Handle, Unit};
use c_types::Types;
use decl_judge::child_at;
use expression_rows::is_function;
use judged_objects::{JudgedObjects, ObjectNote};
use linear_code::FunctionNote;
use node_facts::{NodeFact, NodeFacts};
use statement_judge::Enclosings;

// Whether a declarator declares an object that comes to be where its declaration is reached.
fn is_automatic(fact: NodeFact) -> bool
    ensures { (table : TypeTable) → result ≡ typing.is_automatic (node_seen table fact) }
{
    match fact {
        NodeFact::Declared(declaration) => !(declaration.is_typedef || declaration.is_static),
        NodeFact::Unknown => false,
        NodeFact::Expression(_) => false,
        NodeFact::Specified(_) => false,
        NodeFact::NamedType(_) => false,
    }
}

/// Whether the node with this handle does.
pub fn is_automatic_at(facts: &NodeFacts, declarator: Handle) -> bool
    ensures { (table : TypeTable) → result ≡ typing.is_automatic (fact_at (nodes_seen table facts.now) declarator) }
{
    is_automatic(facts.at(declarator))
}

/// The number of the expression with this handle, if it is constant.
pub fn constant_at(types: &Types, facts: &NodeFacts, expression: Handle) -> Option<i128>
    requires { All (IsKnownNodeFact types.now) facts.now }
    ensures { result ≡ constant_known (fact_at (nodes_seen types.now facts.now) expression) }
{
    constant_in(types, facts.at(expression))
}

// Whether its type is a function's.
fn declares_function(types: &Types, fact: NodeFact) -> bool
    requires { IsKnownNodeFact types.now fact }
    ensures { result ≡ declares_function (node_seen types.now fact) }
{
    match fact {
        NodeFact::Declared(declaration) => is_function(types, declaration.of),
        NodeFact::Unknown => false,
        NodeFact::Expression(_) => false,
        NodeFact::Specified(_) => false,
        NodeFact::NamedType(_) => false,
    }
}

fn function_noted(note: ObjectNote) -> FunctionNote
    ensures { result ≡ function_noted note }
{
    FunctionNote {
        contexts: note.contexts,
        is_noreturn: note.is_noreturn,
    }
}

// What is known of the function that the node with this handle declares, if it does.
fn function_of(
    types: &Types,
    facts: &NodeFacts,
    objects: &JudgedObjects,
    declarator: Handle,
) -> Option<FunctionNote>
    requires { All (IsKnownNodeFact types.now) facts.now }
    ensures { (nodes : UnitNodes) (surroundings : List Surrounding) → AreObjects nodes surroundings (nodes_seen types.now facts.now) objects.now → result ≡ function_known (known_of nodes surroundings (nodes_seen types.now facts.now)) declarator }
{
    if !declares_function(types, facts.at(declarator)) {
        return None;
    }
    Some(function_noted(objects.note_of(facts, declarator)))
}

// The handle of a node of which something may be known.
fn handle_of(facts: &NodeFacts, number: u64) -> Option<Handle>
    requires { length facts.now ≤ 2 ^ 32 }
    ensures { MatchOption result (length facts.now ≤ number) (λ handle. handle ≡ number) }
{
    if (number as usize) < facts.len() {
        Some(number as Handle)
    } else {
        None
    }
}

/// What is known of the function that the node with this number declares, if it does.
pub fn function_at(
    types: &Types,
    facts: &NodeFacts,
    objects: &JudgedObjects,
    declarator: u64,
) -> Option<FunctionNote>
    requires few { length facts.now ≤ 2 ^ 32 }
    requires ids { All (IsKnownNodeFact types.now) facts.now }
    ensures { (nodes : UnitNodes) (surroundings : List Surrounding) → AreObjects nodes surroundings (nodes_seen types.now facts.now) objects.now → result ≡ function_known (known_of nodes surroundings (nodes_seen types.now facts.now)) declarator }
{
    match handle_of(facts, declarator) {
        Some(handle) => function_of(types, facts, objects, handle),
        None => None,
    }
}

// What is known of the value of the switch around a `case`.
fn switched(unit: &Unit, facts: &NodeFacts, enclosings: &Enclosings, statement: Handle) -> NodeFact
    requires { unit.now.first ≡ 0 }
    ensures seen { (table : TypeTable) (surroundings : List Surrounding) → AreEnclosings (nodes_of unit.now) surroundings enclosings.now → node_seen table result ≡ switched_fact (nodes_of unit.now) (nodes_seen table facts.now) (switch_of (nodes_of unit.now) surroundings statement) }
    ensures known { (table : TypeTable) → All (IsKnownNodeFact table) facts.now → IsKnownNodeFact table result }
{
    match enclosings.at(statement).switch {
        Some(switch) => facts.at(child_at(unit, switch, 0)),
        None => NodeFact::Unknown,
    }
}

/// The number of the `case` with this handle in the type of its switch (C11 6.8.4.2 p5), or 0 where something isn't known.
pub fn case_number_at(
    unit: &Unit,
    types: &Types,
    facts: &NodeFacts,
    enclosings: &Enclosings,
    statement: Handle,
) -> i128
    requires whole { unit.now.first ≡ 0 }
    requires ids { All (IsKnownNodeFact types.now) facts.now }
    ensures { (surroundings : List Surrounding) → AreEnclosings (nodes_of unit.now) surroundings enclosings.now → result ≡ number_or_zero (number_at (nodes_of unit.now) surroundings (nodes_seen types.now facts.now) statement) }
{
    let around = switched(unit, facts, enclosings, statement);
    let label = facts.at(child_at(unit, statement, 0));
    number_of_label(types, around, label)
}
