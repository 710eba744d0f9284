// The tokens of a unit: to their tree, to the lines of its expressions, each judged by itself.
ghost use Rattle.std.specs.Prelude.{◌≡◌, ◌++◌, IfOk, List, OnOk, length};
ghost use Rattle.c_preproc.specs.Units.{IsKnownUnit};
ghost use Rattle.meaning_tree.specs.Laid.{IsLaid};
ghost use Rattle.meaning_typing.specs.Surroundings.{Surrounding};
ghost use Rattle.decl_judge.specs.Units.{nodes_of};
ghost use Rattle.node_surroundings.specs.Seen.{AreSurroundingsOf, surroundings_seen};
ghost use Rattle.ksparse.specs.Written.{reply_seen};
ghost use Rattle.unit_commands.specs.Answers.{AreAnswers, AreKnownAnswers, IsKnownAnswer};
ghost use Rattle.unit_commands.specs.Known.{IsFirstKnown};
ghost use Rattle.unit_commands.specs.Types.{AreLines, AreUnitLines, IsTypesReply, ShowsTypes, TellsTypes, answer_line, shown_of};

use crate::answers::{Answer, Answers, answer_nodes};
use crate::expression_lines::write_fact;
use crate::places::constraint_text;
use crate::reply::shown;
use c_parse::parse;
use c_preproc::UnitTokens;
use c_tokens::Names;
use c_tree::Unit;
use ksparse::{Written, tell_fault};
use node_judge::{Known, name_types};
use node_surroundings::{Surroundings, surroundings_of};
use std::alloc::{AllocError, Global};
use warn_print::Show;

// Appends the line of what is answered of a node that stands at the token with this index, if that has one.
fn write_answer(
    alloc: Global,
    text: &mut Vec<u8>,
    show: &Show<'_>,
    token: u32,
    answer: Answer,
) -> Result<(), AllocError>
    requires { IsKnownAnswer show.now.types.now answer }
    ensures { OnOk result (text.new.items ≡ text.old.items ++ answer_line show.now token answer) }
{
    match answer {
        Answer::Known(fact) => write_fact(alloc, text, show, token, fact),
        Answer::Breaks(broken) => {
            let line = constraint_text(alloc, show.names, show.toks, broken)?;
            text.extend_from_slice(line.as_slice())
        }
    }
}

// The lines of all nodes of a unit, of which this is answered, in their order.
fn node_lines(
    alloc: Global,
    unit: &Unit,
    answers: &Answers,
    show: &Show<'_>,
) -> Result<Vec<u8>, AllocError>
    requires whole { unit.now.first ≡ 0 }
    requires all { length answers.now ≡ length (nodes_of unit.now) }
    requires ids { AreKnownAnswers show.now.types.now answers.now }
    ensures { (surroundings : List Surrounding) → AreAnswers (nodes_of unit.now) surroundings show.now.types.now answers.now
        → IfOk result (λ text. AreLines (nodes_of unit.now) surroundings (shown_of show.now) (length (nodes_of unit.now)) text.items) }
{
    let mut text = Vec::new(alloc);
    for handle in 0..unit.len() {
        write_answer(
            alloc,
            &mut text,
            show,
            unit.token(handle),
            answers.at(handle),
        )?;
    }
    Ok(text)
}

// The lines of a unit's expressions, where nothing is known of its nodes yet, which stand in this.
fn known_lines<'u>(
    alloc: Global,
    names: &'u Names,
    toks: &'u UnitTokens,
    unit: &Unit,
    surroundings: &Surroundings,
    known: &mut Known,
) -> Result<Vec<u8>, AllocError>
    requires whole { unit.now.first ≡ 0 }
    requires laid { IsLaid unit.now }
    requires surroundings { AreSurroundingsOf unit.now surroundings.now }
    requires all { length surroundings.now ≡ length unit.now.nodes }
    requires known { IsFirstKnown (nodes_of unit.now) (surroundings_seen surroundings.now) 0 known.old }
    ensures { IfOk result (λ text. AreUnitLines names.now toks.now (nodes_of unit.now) (surroundings_seen surroundings.now) text.items) }
{
    let answers = answer_nodes(alloc, unit, surroundings, known)?;
    let types = &mut known.declarations.types;
    name_types(unit, surroundings, types)?;
    let show = Show { names, toks, types };
    node_lines(alloc, unit, &answers, &show)
}

// The lines of a unit's expressions.
fn unit_lines<'u>(
    alloc: Global,
    names: &'u Names,
    toks: &'u UnitTokens,
    unit: &Unit,
) -> Result<Vec<u8>, AllocError>
    requires whole { unit.now.first ≡ 0 }
    requires laid { IsLaid unit.now }
    ensures { IfOk result (λ text. ShowsTypes names.now toks.now (nodes_of unit.now) text.items) }
{
    let surroundings = surroundings_of(alloc, unit)?;
    let mut known = Known::new(alloc, unit, &surroundings)?;
    let text = known_lines(alloc, names, toks, unit, &surroundings, &mut known);
    drop(known);
    text
}

// The types of these nodes.
fn show_unit(
    alloc: Global,
    names: &Names,
    toks: &UnitTokens,
    unit: &Unit,
) -> Result<Written, AllocError>
    requires whole { unit.now.first ≡ 0 }
    requires laid { IsLaid unit.now }
    ensures { IfOk result (λ written. TellsTypes names.now toks.now (nodes_of unit.now) (reply_seen written)) }
{
    let out = unit_lines(alloc, names, toks, unit)?;
    Ok(shown(alloc, out))
}

/// What is written of the tokens of a unit: the types of the expressions of the tree that they derive, each of which is
/// judged by itself, or the line of their refusal.
pub fn type_tokens(alloc: Global, names: &Names, toks: &UnitTokens) -> Result<Written, AllocError>
    requires { IsKnownUnit names.now toks.now }
    ensures { IfOk result (λ written. IsTypesReply names.now toks.now (reply_seen written)) }
{
    match parse(alloc, names, toks.tokens.as_slice()) {
        Ok(unit) => show_unit(alloc, names, toks, &unit),
        Err(fault) => tell_fault(alloc, names, toks, fault),
    }
}
