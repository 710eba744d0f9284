// Which parts of a node are tested: control goes by whether their value is true.
ghost use Rattle.std.specs.Prelude.{◌≡◌};
ghost use Rattle.meaning_control.specs.Nodes as meaning;

use sparse_model::NodeKind;

/// Whether control goes by the value of a part of a node of this kind, where it goes by the value of the node itself or doesn't, by
/// the place of the part among those that are passed, and whether it is the last of them.
pub fn is_condition(kind: NodeKind, is_tested: bool, place: usize, is_last: bool) -> bool
    ensures { result ≡ meaning.tests kind is_tested place is_last }
{
    match kind {
        NodeKind::LogicalNot => is_tested,
        NodeKind::LogicalAnd => !is_last || is_tested,
        NodeKind::LogicalOr => !is_last || is_tested,
        NodeKind::Conditional => place == 0 || is_tested,
        NodeKind::BuiltinExpect => !is_last && is_tested,
        NodeKind::Parenthesized => is_tested,
        NodeKind::Comma => is_last && is_tested,
        NodeKind::StatementExpression => is_last && is_tested,
        NodeKind::ExpressionStatement => is_tested,
        NodeKind::IfStatement => place == 0,
        NodeKind::WhileStatement => place == 0,
        NodeKind::DoStatement => place == 1,
        NodeKind::ForStatement => place == 1,
        _ => false,
    }
}
