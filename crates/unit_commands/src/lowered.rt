// The tokens of a unit: to their tree, to its judgement, to the lines of its functions.
ghost use Rattle.std.specs.Prelude.{◌≡◌, IfOk};
ghost use Rattle.meaning_tree.specs.Laid.{IsLaid};
ghost use Rattle.c_preproc.specs.Units.{IsKnownUnit};
ghost use Rattle.decl_judge.specs.Units.{nodes_of};
ghost use Rattle.ksparse.specs.Judging.{HasTypeIds, IsJudgedSo};
ghost use Rattle.ksparse.specs.Written.{reply_seen};
ghost use Rattle.unit_commands.specs.Flows.{IsFlowsReply, ShowsFlows, TellsFlows};

use crate::functions::all_lines;
use crate::reply::shown;
use c_parse::parse;
use c_preproc::UnitTokens;
use c_tokens::Names;
use c_tree::Unit;
use judged_control::JudgedFacts;
use ksparse::{
    JudgeFault, Judged, Written, constraint, enclosings_of, judge, knows_tokens, limit, tell_fault,
};
use node_surroundings::surroundings_of;
use std::alloc::{AllocError, Global};

// The lines of the functions of a unit that was judged.
fn unit_lines(alloc: Global, unit: &Unit, judged: &Judged) -> Result<Vec<u8>, AllocError>
    requires whole { unit.now.first ≡ 0 }
    requires laid { IsLaid unit.now }
    requires so { IsJudgedSo (nodes_of unit.now) judged.now }
    requires ids { HasTypeIds judged.now }
    ensures { IfOk result (λ text. ShowsFlows (nodes_of unit.now) text.items) }
{
    unit.each_node_stands_for_one_tree();
    // Its handles have 32 bits.
    let _count = unit.len();
    if !knows_tokens(unit) {
        // No unit that was parsed comes here.
        return Err(AllocError);
    }
    let surroundings = surroundings_of(alloc, unit)?;
    let enclosings = enclosings_of(alloc, unit, &surroundings)?;
    let facts = JudgedFacts::new(
        unit,
        &surroundings,
        &judged.types,
        &judged.facts,
        &enclosings,
        &judged.objects,
    );
    all_lines(alloc, unit, &facts)
}

// The flows of these nodes, or for what the judge refuses them.
fn lower_unit(
    alloc: Global,
    names: &Names,
    toks: &UnitTokens,
    unit: &Unit,
) -> Result<Written, AllocError>
    requires whole { unit.now.first ≡ 0 }
    requires laid { IsLaid unit.now }
    ensures { IfOk result (λ written. TellsFlows names.now toks.now (nodes_of unit.now) (reply_seen written)) }
{
    match judge(alloc, unit) {
        Ok(judged) => Ok(shown(alloc, unit_lines(alloc, unit, &judged)?)),
        Err(JudgeFault::Constraint(broken)) => constraint(alloc, names, toks, broken),
        Err(JudgeFault::Limit(kind)) => limit(alloc, kind),
        Err(JudgeFault::Memory) => Err(AllocError),
    }
}

/// What is written of the tokens of a unit: the flows of the functions of the tree that they derive, or the line of their refusal.
pub fn lower_tokens(alloc: Global, names: &Names, toks: &UnitTokens) -> Result<Written, AllocError>
    requires { IsKnownUnit names.now toks.now }
    ensures { IfOk result (λ written. IsFlowsReply names.now toks.now (reply_seen written)) }
{
    match parse(alloc, names, toks.tokens.as_slice()) {
        Ok(unit) => lower_unit(alloc, names, toks, &unit),
        Err(fault) => tell_fault(alloc, names, toks, fault),
    }
}
