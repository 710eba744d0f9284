// The tokens of a unit: to their tree, to its lines.
ghost use Rattle.std.specs.Prelude.{◌≡◌, IfOk};
ghost use Rattle.c_preproc.specs.Units.{IsKnownUnit};
ghost use Rattle.ksparse.specs.Written.{reply_seen};
ghost use Rattle.unit_commands.specs.Trees.{IsTreeReply, tree_reply};

use crate::reply::shown;
use crate::source::Source;
use crate::walk::tree_text;
use c_parse::parse;
use c_preproc::UnitTokens;
use c_tokens::Names;
use c_tree::Unit;
use ksparse::{Written, tell_fault};
use std::alloc::{AllocError, Global};

/// What is written of the tokens of a unit: the tree that they derive, or the line of their refusal.
pub fn show_tokens(alloc: Global, names: &Names, toks: &UnitTokens) -> Result<Written, AllocError>
    requires { IsKnownUnit names.now toks.now }
    ensures { IfOk result (λ written. IsTreeReply names.now toks.now (reply_seen written)) }
{
    match parse(alloc, names, toks.tokens.as_slice()) {
        Ok(unit) => show_unit(alloc, names, toks, &unit),
        Err(fault) => tell_fault(alloc, names, toks, fault),
    }
}

// The tree of these nodes.
fn show_unit(
    alloc: Global,
    names: &Names,
    toks: &UnitTokens,
    unit: &Unit,
) -> Result<Written, AllocError>
    requires { unit.now.first ≡ 0 }
    ensures { IfOk result (λ written. reply_seen written ≡ tree_reply names.now toks.now unit.now) }
{
    let source = Source {
        names,
        tokens: toks.tokens.as_slice(),
        unit,
    };
    let out = tree_text(alloc, &source)?;
    Ok(shown(alloc, out))
}
