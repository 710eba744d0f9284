// Complete types (C11 6.2.5 p1): a type and the table in, whether an object has it and what its name breaks out. Declarations
// aren't known here.
ghost use Rattle.std.specs.Prelude.{◌≡◌, option_map};
ghost use Rattle.meaning_rules.specs.Rules.{least_broken};
ghost use Rattle.meaning_typing.specs.DeclarationRows as meaning;
ghost use Rattle.meaning_typing.specs.MemberRows as members;
ghost use Rattle.c_types.specs.Layouts.{told_in};
ghost use Rattle.c_types.specs.Table.{IsTypeId, type_at};
ghost use Rattle.expression_rows.specs.Rows.{broken_seen};
ghost use Rattle.declaration_rows.specs.Types.{is_unbounded_base};

use c_types::{OuterBase, Types};
use expression_rows::{Broken, broken_at, has_no_size, is_array, is_function, is_void};
use sparse_model::{ErrorKind, TypeId};

/// Whether no object has this type: it is void, a function, or not complete.
pub fn is_no_object(types: &Types, of: TypeId) -> bool
    requires { IsTypeId types.now of }
    ensures { result ≡ members.is_no_object (told_in types.now) (type_at types.now of) }
{
    is_void(types, of) || is_function(types, of) || has_no_size(types, of)
}

fn is_unbounded_base(base: OuterBase) -> bool
    ensures { result ≡ is_unbounded_base base }
{
    match base {
        OuterBase::Array(_, None) => true,
        _ => false,
    }
}

/// Whether a type is an array whose length isn't known (6.7.6.2 p4).
#[tactic(auto, using(crate::proofs::TypeLemmas::unbounded_told, crate::proofs::TypeLemmas::bounded_unless))]
pub fn is_unbounded(types: &Types, of: TypeId) -> bool
    requires { IsTypeId types.now of }
    ensures { result ≡ members.is_unbounded (type_at types.now of) }
{
    // The outermost level of a function is told with a step for each parameter.
    is_array(types, of) && is_unbounded_base(types.shape(of).base)
}

/// What a name breaks whose type isn't complete, at its token.
pub fn incomplete_name(token: u32, is_incomplete: bool) -> Option<Broken>
    ensures { option_map broken_seen result ≡ least_broken (meaning.incomplete_name token is_incomplete) }
{
    if is_incomplete {
        broken_at(ErrorKind::IncompleteType, token)
    } else {
        None
    }
}
