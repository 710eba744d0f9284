// Names in expressions (C11 6.5.1 p2).
ghost use Rattle.std.specs.Prelude.{◌≡◌, IfSome, List};
ghost use Rattle.meaning_typing.specs.Facts.{Fact};
ghost use Rattle.meaning_typing.specs.Names as meaning;
ghost use Rattle.c_types.specs.Table.{IsTypeId, TypeTable};
ghost use Rattle.node_facts.specs.Facts.{addressed_seen};
ghost use Rattle.expression_rows.specs.Names.{IsNamed, address_if, named_as};
ghost use Rattle.expression_rows.specs.Rows.{IsKnownRow, row_seen, told};

use crate::row::{Row, RowFailures};
use node_facts::{Addressed, ExpressionFact, ExpressionMarks};
use sparse_model::TypeId;

/// What a name stands for: an object, a function or a type.
#[derive(Clone, Copy, Debug, PartialEq, Eq)]
pub struct DeclaredName {
    /// The type that its declarations have given to the name where it is used.
    pub of: TypeId,
    pub is_typedef: bool,
    /// It is there as long as the program runs (C11 6.2.4 p3).
    pub is_static: bool,
    pub is_register: bool,
}

fn address_if(is_static: bool) -> Addressed
    ensures { addressed_seen result ≡ address_if is_static }
{
    if is_static {
        Addressed::ConstantPlace
    } else {
        Addressed::NotAddress
    }
}

// Of an object, a function or a type.
fn named_as(named: DeclaredName) -> Row
    ensures row { (table : TypeTable) → row_seen table result ≡ told (named_as table named) }
    ensures known { (table : TypeTable) → IsTypeId table named.of → IsKnownRow table result }
{
    if named.is_typedef {
        return Row::nothing();
    }
    let marks = ExpressionMarks {
        is_place: true,
        is_register: named.is_register,
        address: address_if(named.is_static),
        ..ExpressionMarks::none()
    };
    let fact = ExpressionFact {
        marks,
        ..ExpressionFact::value(named.of)
    };
    Row::gives(fact, None, RowFailures::none())
}

/// The row of a name. Nothing is known of one that stands for a type, nor where its declaration isn't known.
pub fn judge_name(named: Option<DeclaredName>) -> Row
    ensures row { (table : TypeTable) (facts : List Fact) (declaration : Fact) → IsNamed table named facts declaration → row_seen table result ≡ told (meaning.name_row facts declaration) }
    ensures known { (table : TypeTable) → IfSome named (λ named. IsTypeId table named.of) → IsKnownRow table result }
{
    match named {
        None => Row::nothing(),
        Some(named) => named_as(named),
    }
}
