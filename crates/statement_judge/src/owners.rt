// What a function, or a statement expression outside every function, says of the `goto`s and the labels that belong to it (C11 6.8.6.1).
ghost use Rattle.std.specs.Prelude.{◌≡◌, List, option_map};
ghost use Rattle.meaning_rules.specs.Rules.{least_broken};
ghost use Rattle.meaning_statements.specs.Above.{expressions_around, leads_into};
ghost use Rattle.meaning_statements.specs.Jumps.{SeenLabel, first_named, gotos_before, labels_before};
ghost use Rattle.meaning_statements.specs.StatementRows as meaning;
ghost use Rattle.meaning_tree.specs.Laid.{IsLaid};
ghost use Rattle.decl_judge.specs.Units.{nodes_of};
ghost use Rattle.expression_rows.specs.Rows.{broken_seen};
ghost use Rattle.node_facts.specs.Facts.{name_seen};
ghost use Rattle.node_surroundings.specs.Seen.{AreSurroundingsOf, surroundings_seen};
ghost use Rattle.statement_judge.specs.Gotos.{StandsForGotos, kept_seen};
ghost use Rattle.statement_judge.specs.Nesting.{IsNestingOf};
ghost use Rattle.statement_judge.specs.Rows.{Says};
ghost use Rattle.statement_rows.specs.Labels.{StandsForNamed};

use crate::gotos::{Gotos, KeptGoto};
use crate::nesting::Nesting;
use c_tree::{Handle, Unit};
use c_types::Types;
use expression_rows::{Broken, Row, RowFailures, lesser};
use node_surroundings::Surroundings;
use statement_rows::{FunctionLabel, FunctionLabels, judge_goto};

// Whether a `goto` leads into a statement expression, if there is a label to which it leads.
fn enters(
    unit: &Unit,
    surroundings: &Surroundings,
    nesting: &Nesting,
    goto: KeptGoto,
    label: Option<FunctionLabel>,
) -> Option<bool>
    requires whole { unit.now.first ≡ 0 }
    requires laid { IsLaid unit.now }
    requires surroundings { AreSurroundingsOf unit.now surroundings.now }
    requires nesting { IsNestingOf (nodes_of unit.now) (surroundings_seen surroundings.now) nesting.now }
    ensures { result ≡ option_map (λ label. leads_into (expressions_around (nodes_of unit.now) (surroundings_seen surroundings.now) goto.handle) label.inside) label }
{
    match label {
        Some(label) => Some(nesting.leads_into(unit, goto.handle, label.inside)),
        None => None,
    }
}

// What one `goto` of this function breaks.
fn goto_broken(
    unit: &Unit,
    surroundings: &Surroundings,
    nesting: &Nesting,
    labels: &FunctionLabels,
    owner: Handle,
    goto: KeptGoto,
) -> Option<Broken>
    requires whole { unit.now.first ≡ 0 }
    requires laid { IsLaid unit.now }
    requires surroundings { AreSurroundingsOf unit.now surroundings.now }
    requires nesting { IsNestingOf (nodes_of unit.now) (surroundings_seen surroundings.now) nesting.now }
    ensures { (read : List SeenLabel) → StandsForNamed labels.now read → option_map broken_seen result ≡ least_broken (meaning.goto_broken (kept_seen (expressions_around (nodes_of unit.now) (surroundings_seen surroundings.now)) owner goto) (first_named owner (name_seen goto.name) read)) }
{
    let label = labels.first(owner, goto.name);
    let enters = enters(unit, surroundings, nesting, goto, label);
    judge_goto(goto.token, goto.name, enters)
}

// What the `goto`s of this function break the least. It takes a few steps for each.
fn gotos_broken(
    unit: &Unit,
    surroundings: &Surroundings,
    nesting: &Nesting,
    labels: &FunctionLabels,
    gotos: &Gotos,
    owner: Handle,
) -> Option<Broken>
    requires whole { unit.now.first ≡ 0 }
    requires laid { IsLaid unit.now }
    requires surroundings { AreSurroundingsOf unit.now surroundings.now }
    requires nesting { IsNestingOf (nodes_of unit.now) (surroundings_seen surroundings.now) nesting.now }
    requires labels { StandsForNamed labels.now (labels_before (nodes_of unit.now) (surroundings_seen surroundings.now) owner) }
    requires gotos { StandsForGotos (expressions_around (nodes_of unit.now) (surroundings_seen surroundings.now)) gotos.now (gotos_before (nodes_of unit.now) (surroundings_seen surroundings.now) owner) }
    ensures { option_map broken_seen result ≡ least_broken (meaning.gotos_broken owner (labels_before (nodes_of unit.now) (surroundings_seen surroundings.now) owner) (gotos_before (nodes_of unit.now) (surroundings_seen surroundings.now) owner)) }
{
    let mut least = None;
    let mut next = gotos.last_of(owner);
    while let Some(number) = next {
        let goto = gotos.at(number);
        let broken = goto_broken(unit, surroundings, nesting, labels, owner, goto);
        least = lesser(least, broken);
        next = goto.before;
    }
    least
}

/// The row of what labels belong to, behind all of them.
pub fn owner_row(
    unit: &Unit,
    surroundings: &Surroundings,
    types: &Types,
    nesting: &Nesting,
    labels: &FunctionLabels,
    gotos: &Gotos,
    owner: Handle,
) -> Row
    requires whole { unit.now.first ≡ 0 }
    requires laid { IsLaid unit.now }
    requires surroundings { AreSurroundingsOf unit.now surroundings.now }
    requires nesting { IsNestingOf (nodes_of unit.now) (surroundings_seen surroundings.now) nesting.now }
    requires labels { StandsForNamed labels.now (labels_before (nodes_of unit.now) (surroundings_seen surroundings.now) owner) }
    requires gotos { StandsForGotos (expressions_around (nodes_of unit.now) (surroundings_seen surroundings.now)) gotos.now (gotos_before (nodes_of unit.now) (surroundings_seen surroundings.now) owner) }
    ensures { Says types.now types.now result (meaning.owner_row (nodes_of unit.now) (surroundings_seen surroundings.now) owner) }
{
    Row::breaks(
        gotos_broken(unit, surroundings, nesting, labels, gotos, owner),
        RowFailures::none(),
    )
}
