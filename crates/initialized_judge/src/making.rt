// What an initializer makes of an object, as far as the row of its node asks: the completed type, or the constraint that is broken.
ghost use Rattle.std.specs.Prelude.{◌≡◌, IfOk, OnOk};
ghost use Rattle.meaning_initializers.specs.Reading.{aggregates_behind};
ghost use Rattle.meaning_tree.specs.Laid.{IsLaid};
ghost use Rattle.c_types.specs.Table.{IsTypeId, type_at};
ghost use Rattle.decl_judge.specs.Units.{nodes_of};
ghost use Rattle.declaration_judge.specs.Kept.{IsKeptOf, OnlyTypesJoin, facts_seen};
ghost use Rattle.init_judge.specs.Steps.{AreKnownIn};
ghost use Rattle.node_surroundings.specs.Seen.{surroundings_seen};
ghost use Rattle.initialized_judge.specs.Judging.{IsMade};

use c_tree::{Handle, Unit};
use declaration_judge::Declarations;
use expression_rows::Broken;
use init_judge::{InitFault, judge_init};
use node_surroundings::Surroundings;
use sparse_model::{FailureList, TypeId};
use std::alloc::{AllocError, Global};

/// What an initializer makes of an object.
#[derive(Clone, Copy)]
pub enum Made {
    /// One of this type.
    Complete(TypeId),
    /// Nothing: it breaks this constraint, and none that stands before.
    Refused(Broken),
}

/// What the initializer with this handle makes of an object of this type, which is static or isn't. The rules that fail at its leaves
/// are appended, unless it breaks a constraint.
pub fn make(
    alloc: Global,
    unit: &Unit,
    _surroundings: &Surroundings,
    kept: &mut Declarations,
    found: &mut FailureList,
    object: TypeId,
    is_static: bool,
    init: Handle,
) -> Result<Made, AllocError>
    requires whole { unit.now.first ≡ 0 }
    requires laid { IsLaid unit.now }
    requires kept { IsKeptOf (nodes_of unit.now) (surroundings_seen _surroundings.now) kept.old }
    requires aggregates { AreKnownIn kept.old.types (aggregates_behind (nodes_of unit.now) (surroundings_seen _surroundings.now) (facts_seen kept.old)) }
    requires object { IsTypeId kept.old.types object }
    ensures made { IfOk result (IsMade (nodes_of unit.now) (surroundings_seen _surroundings.now) (facts_seen kept.old) (type_at kept.old.types object) is_static init kept.new.types found.old found.new) }
    ensures keeps { OnOk result (OnlyTypesJoin kept.old kept.new) }
{
    unit.each_node_stands_for_one_tree();
    let Declarations { types, facts, .. } = kept;
    match judge_init(alloc, unit, types, facts, object, is_static, init, found) {
        Ok(plan) => {
            let complete = plan.complete;
            drop(plan);
            Ok(Made::Complete(complete))
        }
        Err(InitFault::Constraint(broken)) => Ok(Made::Refused(broken)),
        Err(InitFault::Memory) => Err(AllocError),
    }
}
