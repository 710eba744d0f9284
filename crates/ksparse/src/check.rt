// The check of preprocessed tokens: parsing, then the judgement of their tree, then its text.
ghost use Rattle.std.specs.Prelude.{◌≡◌, IfOk, length};
ghost use Rattle.meaning_answer.specs.Answers.{IsCheckReply, TellsUnit};
ghost use Rattle.meaning_answer.specs.Reply.{Clean};
ghost use Rattle.meaning_answer.specs.Units.{IsWholeListing, TellsWarnings, ending_behind, warned_reply};
ghost use Rattle.meaning_tree.specs.Laid.{IsLaid};
ghost use Rattle.meaning_warnings.specs.Listing.{AreOrdered, unit_lines};
ghost use Rattle.meaning_safety.specs.Safe.{AreSafeTokens, DeriveLinkedTree};
ghost use Rattle.meaning_unit_nodes.specs.Numbered.{spellings_told};
ghost use Rattle.c_parse.specs.Answers.{DerivesUnit};
ghost use Rattle.c_preproc.specs.Units.{IsKnownUnit, failures_from};
ghost use Rattle.c_tokens.specs.Seen.{toks_of};
ghost use Rattle.decl_judge.specs.Units.{nodes_of};
ghost use Rattle.context_judge.specs.Found.{found_seen};
ghost use Rattle.parse_state.specs.Finished.{spelled};
ghost use Rattle.context_judge.specs.Judging.{HasTypeIds, IsJudgedSo};
ghost use Rattle.ksparse.specs.Ending.{ending_seen};
ghost use Rattle.ksparse.specs.Judged.{IsNumberedUnit, IsWrittenTree, listing_shown, shown_over, unit_seen};
ghost use Rattle.ksparse.specs.Written.{paths_of, reply_seen};

use crate::exit::Exit;
use crate::parsing::tell_fault;
use crate::refusal::{constraint, limit};
use crate::reply::Written;
use c_parse::parse;
use c_preproc::UnitTokens;
use c_tokens::Names;
use c_tree::Unit;
use c_types::Types;
use context_judge::{JudgeFault, Judged, context_failures, judge};
use failure_listing::in_order;
use meaning_safety::clean_checks_are_safe;
use sparse_model::{ClassSet, FailureList};
use std::alloc::{AllocError, Global};
use unit_names::renumbered;
use warn_print::{Show, print_all};
use written_units::{are_linked, is_written};

/// Checks the tokens of a unit, and answers for what parsing or a constraint refuses them, or what the rules whose classes are on
/// say of them. It takes over the unit and its names, whose memory is free again before the unit is judged.
pub fn check_tokens(
    alloc: Global,
    names: Names,
    toks: UnitTokens,
    classes: &ClassSet,
) -> Result<Written, AllocError>
    requires known { IsKnownUnit names toks }
    requires failures { toks.undefs ≡ failures_from 0 toks.undef_tokens }
    ensures right { IfOk result (λ written. IsCheckReply classes.now (paths_of names toks.files)
        (toks_of names toks.tokens) (toks_of names toks.undef_tokens) (reply_seen written)) }

    // Where nothing is told no run of a unit of the first form meets a fault.
    ensures safe { IfOk result (λ written. ending_seen written.exit ≡ Clean → AreSafeTokens classes.now (toks_of names toks.tokens)) }
{
    clean_checks_are_safe();
    check_renumbered(alloc, names, toks, classes)
}

// The check of tokens under names of their own.
fn check_renumbered(
    alloc: Global,
    names: Names,
    toks: UnitTokens,
    classes: &ClassSet,
) -> Result<Written, AllocError>
    requires known { IsKnownUnit names toks }
    requires failures { toks.undefs ≡ failures_from 0 toks.undef_tokens }
    ensures right { IfOk result (λ written. IsCheckReply classes.now (paths_of names toks.files)
        (toks_of names toks.tokens) (toks_of names toks.undef_tokens) (reply_seen written)) }
    ensures linked { IfOk result (λ written. ending_seen written.exit ≡ Clean → DeriveLinkedTree (toks_of names toks.tokens)) }
{
    let found = renumbered(alloc, &names, &toks)?;
    drop(names);
    drop(toks);
    found.names.apart();
    check_unit(alloc, &found.names, &found.toks, found.told, classes)
}

// The check of tokens whose names are numbered.
fn check_unit(
    alloc: Global,
    names: &Names,
    toks: &UnitTokens,
    told: u32,
    classes: &ClassSet,
) -> Result<Written, AllocError>
    requires numbered { IsNumberedUnit names.now toks.now }
    requires told { told ≡ length (spellings_told (toks_of names.now toks.now.tokens)) }
    ensures right { IfOk result (λ written. IsCheckReply classes.now (paths_of names.now toks.now.files)
        (toks_of names.now toks.now.tokens) (toks_of names.now toks.now.undef_tokens) (reply_seen written)) }
    ensures linked { IfOk result (λ written. ending_seen written.exit ≡ Clean → DeriveLinkedTree (toks_of names.now toks.now.tokens)) }
{
    match parse(alloc, names, toks.tokens.as_slice()) {
        Ok(unit) => check_tree(alloc, names, toks, told, classes, &unit),
        Err(fault) => tell_fault(alloc, names, toks, fault),
    }
}

// The judgement of a tree, whose nodes stand as they are written and whose names are linked.
fn check_tree(
    alloc: Global,
    names: &Names,
    toks: &UnitTokens,
    told: u32,
    classes: &ClassSet,
    unit: &Unit,
) -> Result<Written, AllocError>
    requires numbered { IsNumberedUnit names.now toks.now }
    requires told { told ≡ length (spellings_told (toks_of names.now toks.now.tokens)) }
    requires tree { DerivesUnit (toks_of names.now toks.now.tokens) (spelled names.now unit.now) }
    requires whole { unit.now.first ≡ 0 }
    requires laid { IsLaid unit.now }
    ensures right { IfOk result (λ written. TellsUnit classes.now (paths_of names.now toks.now.files)
        (toks_of names.now toks.now.tokens) (toks_of names.now toks.now.undef_tokens) (reply_seen written)) }
    ensures linked { IfOk result (λ written. DeriveLinkedTree (toks_of names.now toks.now.tokens)) }
{
    names.apart();
    if !are_linked(unit) {
        // No unit that was parsed comes here, nor below.
        return Err(AllocError);
    }
    if is_written(alloc, unit, told)? {
        judge_unit(alloc, names, toks, classes, unit)
    } else {
        Err(AllocError)
    }
}

// What the judge says of these nodes.
fn judge_unit(
    alloc: Global,
    names: &Names,
    toks: &UnitTokens,
    classes: &ClassSet,
    unit: &Unit,
) -> Result<Written, AllocError>
    requires numbered { IsNumberedUnit names.now toks.now }
    requires tree { IsWrittenTree (toks_of names.now toks.now.tokens) unit.now }
    requires whole { unit.now.first ≡ 0 }
    requires laid { IsLaid unit.now }
    ensures { IfOk result (λ written. TellsUnit classes.now (paths_of names.now toks.now.files)
        (toks_of names.now toks.now.tokens) (toks_of names.now toks.now.undef_tokens) (reply_seen written)) }
{
    match judge(alloc, unit) {
        Ok(judged) => tell(alloc, names, toks, classes, unit, &judged),
        Err(JudgeFault::Constraint(broken)) => constraint(alloc, names, toks, broken),
        Err(JudgeFault::Limit(kind)) => limit(alloc, kind),
        Err(JudgeFault::Memory) => Err(AllocError),
    }
}

// The warnings of a unit of which nothing is refused, with those of its control paths.
fn tell(
    alloc: Global,
    names: &Names,
    toks: &UnitTokens,
    classes: &ClassSet,
    unit: &Unit,
    judged: &Judged,
) -> Result<Written, AllocError>
    requires numbered { IsNumberedUnit names.now toks.now }
    requires whole { unit.now.first ≡ 0 }
    requires laid { IsLaid unit.now }
    requires so { IsJudgedSo (nodes_of unit.now) judged.now }
    requires ids { HasTypeIds judged.now }
    ensures { (is : IsJudgedSo (nodes_of unit.now) judged.now) → IfOk result (λ written. TellsWarnings classes.now
        (unit_seen names.now toks.now (nodes_of unit.now) is.surroundings) (found_seen judged.now.types judged.now.failures) (reply_seen written)) }
{
    let whole = whole_listing(alloc, unit, judged)?;
    warn(alloc, names, toks, classes, &judged.types, &whole)
}

// All that fails in a unit of which nothing is refused: its listing, with what fails on its control paths.
fn whole_listing(alloc: Global, unit: &Unit, judged: &Judged) -> Result<FailureList, AllocError>
    requires whole { unit.now.first ≡ 0 }
    requires laid { IsLaid unit.now }
    requires so { IsJudgedSo (nodes_of unit.now) judged.now }
    requires ids { HasTypeIds judged.now }
    ensures lists { IfOk result (λ whole. (is : IsJudgedSo (nodes_of unit.now) judged.now) → IsWholeListing (nodes_of unit.now) is.surroundings
        (found_seen judged.now.types judged.now.failures) (found_seen judged.now.types whole)) }
    ensures ordered { IfOk result (λ whole. AreOrdered (found_seen judged.now.types whole)) }
{
    let paths = context_failures(alloc, unit, judged)?;
    let mut found = Vec::from_slice(alloc, judged.failures.as_slice())?;
    found.extend_from_slice(paths.as_slice())?;
    in_order(alloc, &FailureList::from_vec(found))
}

// The warnings of a listing.
fn warn(
    alloc: Global,
    names: &Names,
    toks: &UnitTokens,
    classes: &ClassSet,
    types: &Types,
    listing: &FailureList,
) -> Result<Written, AllocError>
    requires listing { AreOrdered (listing_shown names.now types.now listing.now) }
    ensures { IfOk result (λ written. reply_seen written
        ≡ warned_reply (unit_lines (shown_over names.now toks.now types.now) classes.now (listing_shown names.now types.now listing.now))) }
{
    let show = Show { names, toks, types };
    let err = print_all(alloc, listing, classes, &show)?;
    let exit = exit_of(err.as_slice());
    Ok(Written {
        out: Vec::new(alloc),
        err,
        exit,
    })
}

// How a command ends that writes these warnings.
fn exit_of(warnings: &[u8]) -> Exit
    ensures { ending_seen result ≡ ending_behind warnings.now }
{
    if warnings.is_empty() {
        Exit::Clean
    } else {
        Exit::Warned
    }
}
