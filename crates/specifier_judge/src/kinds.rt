// Kinds of nodes whose rows stand here.
ghost use Rattle.std.specs.Prelude.{◌≡◌};
ghost use Rattle.specifier_judge.specs.Kinds.{is_of_specifiers};

use sparse_model::NodeKind;

/// Whether a node is of a kind that [`judge_specifier`](crate::judge_specifier) answers.
pub fn is_of_specifiers(kind: NodeKind) -> bool
    ensures { result ≡ is_of_specifiers kind }
{
    match kind {
        NodeKind::Specifiers => true,
        NodeKind::StructSpecifier => true,
        NodeKind::UnionSpecifier => true,
        NodeKind::EnumSpecifier => true,
        NodeKind::Enumerator => true,
        NodeKind::TypedefName => true,
        NodeKind::TypeofType => true,
        NodeKind::TypeofExpression => true,
        NodeKind::TypeName => true,
        _ => false,
    }
}
