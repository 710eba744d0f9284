// An object with its completed type: whether it is too large, whether it was declared otherwise, and what is known of it.
ghost use Rattle.std.specs.Prelude.{◌≡◌, IfOk, IfSome, length};
ghost use Rattle.meaning_initialized.specs.Rows as meaning;
ghost use Rattle.meaning_layout.specs.Sizes.{extent_of};
ghost use Rattle.meaning_typing.specs.Declarators.{is_too_large};
ghost use Rattle.meaning_typing.specs.Facts.{Declared, Expression};
ghost use Rattle.c_types.specs.Layouts.{told_in};
ghost use Rattle.c_types.specs.Table.{IsTypeId, TypeTable, type_at};
ghost use Rattle.decl_judge.specs.Units.{nodes_of};
ghost use Rattle.declaration_judge.specs.Kept.{IsKeptOf, facts_seen};
ghost use Rattle.expression_rows.specs.Rows.{IsKnownFailure, failure_listed};
ghost use Rattle.node_facts.specs.Facts.{IsKnownFact, declared_seen, fact_seen};
ghost use Rattle.node_surroundings.specs.Seen.{surroundings_seen};

use c_tree::{Handle, Unit};
use c_types::{LayoutFault, Types};
use declaration_judge::{Declarations, is_unbounded, redeclared_otherwise, standing_at};
use node_facts::{Addressed, DeclaredFact, ExpressionFact};
use node_surroundings::Surroundings;
use sparse_model::{Failure, TypeId};
use std::alloc::AllocError;

/// Whether a type is larger than an object may be.
pub fn is_large(types: &Types, of: TypeId) -> bool
    requires { IsTypeId types.now of }
    ensures { result ≡ is_too_large (extent_of (told_in types.now) (type_at types.now of)) }
{
    match types.extent(of) {
        Ok(_) => false,
        Err(LayoutFault::Incomplete) => false,
        Err(LayoutFault::TooLarge) => true,
    }
}

/// What is declared, with the completed type.
pub fn with_type(declaration: DeclaredFact, complete: TypeId) -> DeclaredFact
    ensures seen { (table : TypeTable) → Declared (declared_seen table result) ≡ meaning.declared_complete (type_at table complete) (Declared (declared_seen table declaration)) }
    ensures of { result.of ≡ complete }
{
    DeclaredFact {
        name: declaration.name,
        of: complete,
        is_typedef: declaration.is_typedef,
        has_linkage: declaration.has_linkage,
        is_static: declaration.is_static,
        is_register: declaration.is_register,
    }
}

/// The object of a compound literal of this type, which is static or isn't.
pub fn literal(complete: TypeId, is_static: bool) -> ExpressionFact
    ensures seen { (table : TypeTable) → Expression (fact_seen table result) ≡ meaning.literal_complete (type_at table complete) is_static }
    ensures known { (table : TypeTable) → IsTypeId table complete → IsKnownFact table result }
{
    let mut fact = ExpressionFact::place(complete);
    if is_static {
        fact.marks.address = Addressed::ConstantPlace;
    }
    fact
}

/// The failure at a declarator whose array has no length: with the length that it gets it was declared otherwise. It takes a step for
/// each attribute.
pub fn completed_otherwise(
    unit: &Unit,
    surroundings: &Surroundings,
    kept: &Declarations,
    declarator: Handle,
    declaration: DeclaredFact,
    complete: TypeId,
) -> Result<Option<Failure>, AllocError>
    requires whole { unit.now.first ≡ 0 }
    requires all { length surroundings.now ≡ length unit.now.nodes }
    requires kept { IsKeptOf (nodes_of unit.now) (surroundings_seen surroundings.now) kept.now }
    requires of { IsTypeId kept.now.types declaration.of }
    requires complete { IsTypeId kept.now.types complete }
    ensures listed { IfOk result (λ failure. failure_listed kept.now.types failure ≡ meaning.completed_otherwise (nodes_of unit.now) (surroundings_seen surroundings.now) (facts_seen kept.now) declarator (type_at kept.now.types complete) (Declared (declared_seen kept.now.types declaration))) }
    ensures known { IfOk result (λ failure. IfSome failure (IsKnownFailure kept.now.types)) }
{
    if !is_unbounded(&kept.types, declaration.of) {
        return Ok(None);
    }
    let surrounding = standing_at(unit, surroundings, declarator);
    let declared = with_type(declaration, complete);
    redeclared_otherwise(unit, surroundings, kept, declarator, surrounding, declared)
}
