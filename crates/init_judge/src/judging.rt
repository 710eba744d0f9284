// The judgement of one initializer.
ghost use Rattle.std.specs.Prelude.{◌≡◌, All, IfErr, IfOk, OnErr, OnOk};
ghost use Rattle.meaning_tree.specs.Nodes.{ChildrenStandBefore};
ghost use Rattle.meaning_typing.specs.Units.{unit_list};
ghost use Rattle.meaning_initializers.specs.Parts.{Aggregates};
ghost use Rattle.c_types.specs.Table.{IsTypeId, type_at};
ghost use Rattle.decl_judge.specs.Units.{nodes_of};
ghost use Rattle.node_facts.specs.Facts.{IsKnownNodeFact, nodes_seen};
ghost use Rattle.node_facts.specs.Growing.{TypesJoin};
ghost use Rattle.initializer_levels.specs.Met.{IsPlacedIn};
ghost use Rattle.initializer_levels.specs.Steps.{AreKnownIn};
ghost use Rattle.init_judge.specs.Judging.{IsInitializedBy, IsRefusedFor, KeepsTypes};

use crate::appending::append_all;
use crate::fault::InitFault;
use crate::findings::judge_findings;
use crate::whole::plan_of;
use c_tree::{Handle, Unit};
use c_types::Types;
use initializer_levels::{Paths, Placed};
use leaf_rows::completed;
use node_facts::NodeFacts;
use sparse_model::{FailureList, TypeId};
use std::alloc::Global;

/// What an initializer makes of an object.
#[derive(Drop)]
pub struct InitPlan {
    /// The expressions in the order in which they are written, each for a part of the object: later ones go before earlier ones of
    /// the same part (C11 6.7.9 p19).
    pub leaves: Vec<Placed>,
    /// Where the parts stand in the object.
    pub paths: Paths,
    /// The type of the object, where an array without a length has one (p22).
    pub complete: TypeId,
}

/// What an initializer makes of an object of this type, which is static or isn't, by what is known of the nodes before it. The rules
/// that fail at its leaves are appended, each as one of part 256 at the main token of its leaf. An expression of which nothing is known
/// takes its place as one of a scalar type does, and is neither converted nor asked whether it is constant.
///
/// Whether an object of this type may be initialized is the caller's to ask, and whether its completed type is too large. It takes a
/// few steps for each item, and for each object or part in which an item is sought.
///
/// # Errors
/// `Constraint` where the initializer breaks one: the least, by its token and then by its number; types may have joined the table.
/// Want of memory. After either nothing was appended.
pub fn judge_init(
    alloc: Global,
    unit: &Unit,
    types: &mut Types,
    facts: &NodeFacts,
    object: TypeId,
    is_static: bool,
    init: Handle,
    found: &mut FailureList,
) -> Result<InitPlan, InitFault>
    requires whole { unit.now.first ≡ 0 }
    requires order { ChildrenStandBefore (unit_list (nodes_of unit.now)) }
    requires facts { All (IsKnownNodeFact types.old) facts.now }
    requires object { IsTypeId types.old object }
    ensures initialized { (aggregates : Aggregates) → AreKnownIn types.old aggregates → IfOk result (IsInitializedBy aggregates is_static (nodes_of unit.now) (nodes_seen types.old facts.now) (type_at types.old object) init types.new found.old found.new) }
    ensures leaves { IfOk result (λ plan. All (IsPlacedIn types.new plan.paths) plan.leaves.items) }
    ensures complete { IfOk result (λ plan. IsTypeId types.new plan.complete) }
    ensures refused { (aggregates : Aggregates) → AreKnownIn types.old aggregates → IfErr result (IsRefusedFor aggregates is_static (nodes_of unit.now) (nodes_seen types.old facts.now) (type_at types.old object) init) }
    ensures as_before { OnErr result (found.new ≡ found.old) }
    ensures keeps { OnOk result (TypesJoin types.old types.new) }
    ensures kept { IfErr result (KeepsTypes types.old types.new) }
{
    let plan = plan_of(alloc, unit, types, facts, object, init)?;
    let mut failures = FailureList::new(alloc);
    let judged = judge_findings(alloc, unit, types, facts, is_static, &plan, &mut failures)?;
    match judged.broken {
        Some(broken) => Err(InitFault::Constraint(broken)),
        None => {
            let complete = completed(types, object, plan.length)?;
            append_all(found, &failures)?;
            Ok(InitPlan {
                leaves: judged.leaves,
                paths: plan.paths,
                complete,
            })
        }
    }
}
