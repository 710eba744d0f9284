// What is asked of the nodes of a whole unit before its functions are. Functions aren't known here.
ghost use Rattle.std.specs.Prelude.{◌≡◌, ◌↔◌, true, false};
ghost use Rattle.meaning_typing.specs.Units as meaning;
ghost use Rattle.meaning_contexts.specs.Laws.{IsWithoutContexts};
ghost use Rattle.decl_judge.specs.Units.{nodes_of};
ghost use Rattle.node_facts.specs.Facts.{name_seen};
ghost use Rattle.linear_code.specs.Cells.{KnowsTokens};
ghost use Rattle.context_judge.specs.Kinds.{is_context, is_do, is_function_definition};

use c_tree::{Handle, Unit};
use decl_judge::{kind_at, node_at};
use sparse_model::{NameId, NodeKind};

/// The greatest token that a step of a path names.
pub(crate) const LAST_TOKEN: u64 = 4_294_967_295;

fn is_context(kind: NodeKind) -> bool
    ensures { result ≡ is_context kind }
{
    match kind {
        NodeKind::ContextAttribute => true,
        NodeKind::ContextStatement => true,
        _ => false,
    }
}

fn is_do(kind: NodeKind) -> bool
    ensures { result ≡ is_do kind }
{
    match kind {
        NodeKind::DoStatement => true,
        _ => false,
    }
}

/// Whether a node of this kind is the definition of a function.
pub fn is_function_definition(kind: NodeKind) -> bool
    ensures { result ≡ is_function_definition kind }
{
    match kind {
        NodeKind::FunctionDefinition => true,
        _ => false,
    }
}

/// The number of the node with this handle.
pub(crate) fn number_at(unit: &Unit, handle: Handle) -> u64
    requires { unit.now.first ≡ 0 }
    ensures { result ≡ (meaning.node_at (nodes_of unit.now) handle).number }
{
    match node_at(unit, handle) {
        Some(node) => node.number,
        None => 0,
    }
}

/// Its name, or none.
pub(crate) fn name_at(unit: &Unit, handle: Handle) -> NameId
    requires { unit.now.first ≡ 0 }
    ensures { name_seen result ≡ (meaning.node_at (nodes_of unit.now) handle).name }
{
    match node_at(unit, handle) {
        Some(node) => node.name,
        None => NameId(0),
    }
}

/// Whether some node of the unit is the attribute or the statement of a context.
pub(crate) fn has_contexts(unit: &Unit) -> bool
    requires { unit.now.first ≡ 0 }
    ensures { (result ≡ false) ↔ IsWithoutContexts (nodes_of unit.now) }
{
    for handle in 0..unit.len() {
        if is_context(kind_at(unit, handle)) {
            return true;
        }
    }
    false
}

/// Whether the number of each `do` is that of a token; it is in each unit that was parsed.
pub fn knows_tokens(unit: &Unit) -> bool
    requires { unit.now.first ≡ 0 }
    ensures { (result ≡ true) ↔ KnowsTokens (nodes_of unit.now) }
{
    for handle in 0..unit.len() {
        if is_do(kind_at(unit, handle)) && number_at(unit, handle) > LAST_TOKEN {
            return false;
        }
    }
    true
}
