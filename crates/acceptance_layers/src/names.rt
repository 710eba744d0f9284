// Names that are declared again. Rows of declarations are archives of `cases`.
ghost use Rattle.std.specs.Prelude.{OnOk};
ghost use Rattle.c_types.specs.Table.{Extends};

use crate::made_types::{array_of, int_in};
use c_types::Types;
use linked_names::{LinkedNames, TypedefNames};
use sparse_model::{NameId, Space, TypeId};
use std::alloc::AllocError;
use std::process::Abort;
use std::test::Fail;

const NAME: NameId = NameId(1);

const OTHER: NameId = NameId(2);

// Declares the name with this type.
fn declare(
    rt: &impl Abort,
    names: &mut LinkedNames,
    types: &mut Types,
    of: TypeId,
) -> Result<(), AllocError>
    requires { Extends names.old.over types.old }
    ensures { OnOk result (Extends names.new.over types.new) }
{
    assert!(rt; types.knows(of));
    names.declare(types, NAME, of)
}

// The first of the declarations so far that disagrees with this type.
fn assert_unlike(
    rt: &impl Abort,
    names: &LinkedNames,
    types: &Types,
    of: TypeId,
    unlike: Option<TypeId>,
)
    requires { Extends names.now.over types.now }
{
    assert!(rt; types.knows(of));
    assert!(rt; names.first_unlike(types, NAME, of) == unlike);
}

// An array without a length is declared again with one.
fn declare_again(
    rt: &impl Abort,
    names: &mut LinkedNames,
    types: &mut Types,
    of: [TypeId; 3],
) -> Result<(), AllocError>
    requires { Extends names.old.over types.old }
{
    let [ints, three, other] = of;
    declare(rt, names, types, ints)?;
    declare(rt, names, types, three)?;
    assert_unlike(rt, names, types, other, Some(ints));
    assert!(rt; names.type_of(NAME) == Some(three));
    assert!(rt; names.type_of(OTHER).is_none());
    Ok(())
}

fn assert_length(rt: &(impl Abort + AllocGlobal), types: &mut Types) -> Result<(), AllocError> {
    let int = int_in(types, Space::None)?;
    let ints = array_of(rt, types, int, None)?;
    let three = array_of(rt, types, int, Some(3))?;
    let mut names = LinkedNames::new(rt.alloc());
    declare_again(rt, &mut names, types, [ints, three, int])
}

#[test]
fn a_length_comes_from_a_later_declaration(rt: HostRuntime) -> Result<(), Fail> {
    let mut types = Types::new(rt.alloc())?;
    assert_length(&rt, &mut types)?;
    Ok(())
}

fn declare_typedefs(names: &mut TypedefNames) -> Result<(), AllocError> {
    names.declare(7, NAME, TypeId(1))?;
    names.declare(7, NAME, TypeId(2))?;
    names.declare(8, NAME, TypeId(3))
}

#[test]
fn a_typedef_has_the_first_type_of_its_scope(rt: HostRuntime) -> Result<(), Fail> {
    let mut names = TypedefNames::new(rt.alloc());
    declare_typedefs(&mut names)?;
    assert!(rt; names.first(7, NAME) == Some(TypeId(1)));
    assert!(rt; names.first(8, NAME) == Some(TypeId(3)));
    assert!(rt; names.first(7, OTHER).is_none());
    Ok(())
}
