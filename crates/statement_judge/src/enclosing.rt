// What stands above a node: the statements to which jumps and labels belong, and the statement expressions. The unit isn't known here.
ghost use Rattle.std.specs.Prelude.{◌≡◌, None, Some, if◌then◌else◌};
ghost use Rattle.meaning_statements.specs.Above as above;
ghost use Rattle.meaning_statements.specs.Jumps as jumps;
ghost use Rattle.statement_judge.specs.Enclosing.{enclosing_under, nothing_above, outer_or};

use c_tree::Handle;
use sparse_model::NodeKind;

/// What stands above a node, by handles.
#[derive(Clone, Copy, Debug, PartialEq, Eq)]
pub struct Enclosing {
    /// The nearest switch in whose body it stands (C11 6.8.1 p2).
    pub switch: Option<Handle>,
    /// The nearest loop or switch in whose body it stands, which a `break` leaves (6.8.6.3).
    pub left: Option<Handle>,
    /// The nearest loop in whose body it stands, which a `continue` goes on with (6.8.6.2).
    pub continued: Option<Handle>,
    /// The innermost statement expression around it (a GNU form).
    pub innermost: Option<Handle>,
    /// The outermost one.
    pub outermost: Option<Handle>,
}

// A part of a loop at this place is its body.
fn is_loop_body(kind: NodeKind, place: u32) -> bool
    ensures { result ≡ jumps.is_loop_body kind place }
{
    match kind {
        NodeKind::WhileStatement => place == 1,
        NodeKind::DoStatement => place == 0,
        NodeKind::ForStatement => place == 3,
        _ => false,
    }
}

fn is_switch_body(kind: NodeKind, place: u32) -> bool
    ensures { result ≡ jumps.is_switch_body kind place }
{
    match kind {
        NodeKind::SwitchStatement => place == 1,
        _ => false,
    }
}

pub fn is_statement_expression(kind: NodeKind) -> bool
    ensures { result ≡ above.is_statement_expression kind }
{
    match kind {
        NodeKind::StatementExpression => true,
        _ => false,
    }
}

// The node above, where it is such a one.
fn nearest(is_one: bool, parent: Handle, outer: Option<Handle>) -> Option<Handle>
    ensures { result ≡ (if is_one then Some parent else outer) }
{
    if is_one { Some(parent) } else { outer }
}

fn outer_or(outer: Option<Handle>, parent: Handle) -> Handle
    ensures { result ≡ outer_or outer parent }
{
    match outer {
        Some(outermost) => outermost,
        None => parent,
    }
}

impl Enclosing {
    /// Nothing does.
    pub fn nothing() -> Enclosing
        ensures { result ≡ nothing_above }
    {
        Enclosing {
            switch: None,
            left: None,
            continued: None,
            innermost: None,
            outermost: None,
        }
    }

    /// What stands above the part at this place of a node, where this stands above the node.
    pub fn under(self, kind: NodeKind, parent: Handle, place: u32) -> Enclosing
        ensures { result ≡ enclosing_under (record { handle = parent; kind = kind; place = place }) self }
    {
        let in_loop = is_loop_body(kind, place);
        let in_switch = is_switch_body(kind, place);
        let is_expression = is_statement_expression(kind);
        Enclosing {
            switch: nearest(in_switch, parent, self.switch),
            left: nearest(in_loop || in_switch, parent, self.left),
            continued: nearest(in_loop, parent, self.continued),
            innermost: nearest(is_expression, parent, self.innermost),
            outermost: nearest(
                is_expression,
                outer_or(self.outermost, parent),
                self.outermost,
            ),
        }
    }
}
