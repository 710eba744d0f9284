// The judgement of a unit.
ghost use Rattle.std.specs.Prelude.{◌≡◌, IfErr, IfNone, IfOk, IfSome, None, option_map};
ghost use Rattle.meaning_rules.specs.Rules.{first_refusal};
ghost use Rattle.meaning_tree.specs.Laid.{IsLaid};
ghost use Rattle.decl_judge.specs.Units.{nodes_of};
ghost use Rattle.expression_rows.specs.Rows.{broken_seen};
ghost use Rattle.type_judge.specs.Judging.{HasTypeIds, IsJudgedSo, IsRefusal, IsRefusedFor, judged_from};

use crate::fault::JudgeFault;
use crate::pass::{Ending, Pass, judge_nodes};
use c_tree::Unit;
use c_types::Types;
use expression_rows::Broken;
use judged_objects::JudgedObjects;
use node_facts::NodeFacts;
use node_surroundings::surroundings_of;
use sparse_model::{FailureList, LimitKind};
use std::alloc::{AllocError, Global};

/// What is known of a unit of which nothing is refused.
#[derive(Drop)]
pub struct Judged {
    pub types: Types,
    /// What is known of each node, by its handle.
    pub facts: NodeFacts,
    /// All failures by token, rule and part, each once: of those that agree in all three the first, by the order of the nodes.
    pub failures: FailureList,
    /// Of each declarator its object or function, and of each of those its contexts and whether it returns.
    pub objects: JudgedObjects,
}

// The first of what a unit breaks and passes: a limit stands behind the constraints at its token.
fn first_refusal(broken: Option<Broken>, passed: Option<u32>) -> Option<JudgeFault>
    ensures none { IfNone result (first_refusal (option_map broken_seen broken) passed ≡ None) }
    ensures some { IfSome result (λ fault. IsRefusal fault (first_refusal (option_map broken_seen broken) passed)) }
{
    match (broken, passed) {
        (None, None) => None,
        (Some(broken), None) => Some(JudgeFault::Constraint(broken)),
        (None, Some(_)) => Some(JudgeFault::Limit(LimitKind::ObjectSize)),
        (Some(broken), Some(token)) => Some(if broken.token <= token {
            JudgeFault::Constraint(broken)
        } else {
            JudgeFault::Limit(LimitKind::ObjectSize)
        }),
    }
}

/// Judges a unit: the type of each node, what else is known of it, the listing of all failures of rules, the names of restricted
/// types, structures and unions, and what the declarations of each object come to.
///
/// A node costs a few steps, and one more for each of its parts; a specifier of a structure or a union costs one for each of its members,
/// and a function one for each of its `goto`s. The failures are sorted.
///
/// # Errors
/// `Constraint` where the unit breaks one: the least, by its token and then by its number. `Limit` where an object is larger
/// than it may be, and no constraint is broken at a token up to there. Want of memory; it stands too for what no unit has that was read:
/// a number of more than 32 bits, a specifier with two bodies, a member outside of a list, a width that is no part, and a switch whose
/// value isn't written before its body; and for contexts whose sum doesn't fit in 63 bits.
pub fn judge(alloc: Global, unit: &Unit) -> Result<Judged, JudgeFault>
    requires whole { unit.now.first ≡ 0 }
    requires laid { IsLaid unit.now }
    ensures judged { IfOk result (IsJudgedSo (nodes_of unit.now)) }
    ensures ids { IfOk result HasTypeIds }
    ensures refused { IfErr result (IsRefusedFor (nodes_of unit.now)) }
{
    let surroundings = surroundings_of(alloc, unit)?;
    let mut pass = judge_nodes(alloc, unit, &surroundings)?;
    match first_refusal(pass.broken, pass.passed) {
        Some(fault) => {
            drop(pass);
            Err(fault)
        }
        None => match pass.end(alloc, unit, &surroundings) {
            Ok(ending) => Ok(judged_of(pass, ending)),
            Err(AllocError) => {
                drop(pass);
                Err(JudgeFault::Memory)
            }
        },
    }
}

// What a pass knows in the end, with what is told besides.
fn judged_of(pass: Pass, ending: Ending) -> Judged
    ensures { result ≡ judged_from pass ending }
{
    let declarations = pass.known.declarations;
    Judged {
        types: declarations.types,
        facts: declarations.facts,
        failures: ending.failures,
        objects: ending.objects,
    }
}
