// A typedef that stands again in its scope (C11 6.7 p3): the first one there and its type in, the constraint out.
ghost use Rattle.std.specs.Prelude.{◌≡◌, List, option_map};
ghost use Rattle.meaning_rules.specs.Rules.{least_broken};
ghost use Rattle.meaning_typing.specs.Equality.{are_equal_types};
ghost use Rattle.meaning_typing.specs.Names as meaning;
ghost use Rattle.meaning_typing.specs.Surroundings as around;
ghost use Rattle.c_types.specs.Table.{IsTypeId, type_at};
ghost use Rattle.expression_rows.specs.Rows.{broken_seen};
ghost use Rattle.linked_names.specs.Typedefs.{AreTypedefIds};
ghost use Rattle.node_facts.specs.Facts.{declared_seen};
ghost use Rattle.declaration_judge.specs.Kept.{facts_seen, typedefs_in};

use crate::declarations::Declarations;
use c_tree::Handle;
use c_types::Types;
use expression_rows::Broken;
use node_facts::DeclaredFact;
use sparse_model::{ErrorKind, TypeId};

// Whether two types are equal, qualifiers and flags at every level with them.
fn are_equal(types: &Types, one: TypeId, other: TypeId) -> bool
    requires first { IsTypeId types.now one }
    requires second { IsTypeId types.now other }
    ensures { result ≡ are_equal_types (type_at types.now one) (type_at types.now other) }
{
    types.equal(one, other)
}

/// The constraint that a typedef in this scope breaks where the first one of its name has another type. It takes a few steps.
pub fn typedef_again(
    kept: &Declarations,
    token: u32,
    scope: Handle,
    declaration: DeclaredFact,
) -> Option<Broken>
    requires typedefs { AreTypedefIds kept.now.types kept.now.typedefs }
    requires of { IsTypeId kept.now.types declaration.of }
    ensures { (surroundings : List around.Surrounding) (surrounding : around.Surrounding) → kept.now.typedefs ≡ typedefs_in surroundings kept.now.facts → surrounding.around.scope ≡ scope → option_map broken_seen result ≡ least_broken (meaning.typedefs_again surroundings (facts_seen kept.now) token surrounding (declared_seen kept.now.types declaration)) }
{
    if !declaration.is_typedef {
        return None;
    }
    let DeclaredFact { name, of, .. } = declaration;
    let first = kept.typedefs.first(scope, name)?;
    if are_equal(&kept.types, first, of) {
        return None;
    }
    Some(Broken {
        constraint: ErrorKind::TypedefHasAnotherType,
        token,
        name,
    })
}
