// A tree with what its nodes are spelled by, and look-ups in it that always answer.
use c_tokens::{Names, Token};
use c_tree::{Handle, Node, Unit};
use meaning_tree::look_ups_are_exact;
use sparse_model::NameId;

/// The nodes of a unit, its tokens, and the spellings of both.
#[derive(Clone, Copy)]
pub struct Source<'u> {
    /// The spellings.
    pub names: &'u Names,
    /// The tokens, to which nodes point by index.
    pub tokens: &'u [Token],
    /// The nodes, from handle 0 on.
    pub unit: &'u Unit,
}

impl<'u> Source<'u> {
    ghost use Rattle.std.specs.Prelude.{◌≡◌, ◌^◌, ◌<◌, IfNone, IfSome, None, Some};
    ghost use Rattle.c_tokens.specs.Seen.{text_of};
    ghost use Rattle.c_tree.specs.Seen.{node_of};
    ghost use Rattle.meaning_tree.specs.LookUps.{child_at, node_at};
    ghost use Rattle.unit_commands.specs.TreeLines.{position_of};

    /// The node with this handle, if there is one.
    pub(crate) fn node(&self, handle: u64) -> Option<&'u Node>
        requires { self.now.unit.now.first ≡ 0 }
        ensures some { IfSome result (λ node. node_at self.now.unit.now handle ≡ Some (node_of node.now)) }
        ensures none { IfNone result (node_at self.now.unit.now handle ≡ None) }
    {
        look_ups_are_exact::<NameId>();
        if handle < self.unit.len() as u64 {
            Some(self.unit.node(handle as Handle))
        } else {
            None
        }
    }

    /// The part at this place of a node, counted from 0, if there is one: its handle, and the tag of its role.
    pub(crate) fn child(&self, parent: Handle, place: u32) -> Option<(Handle, u8)>
        requires { self.now.unit.now.first ≡ 0 }
        ensures child { result ≡ child_at self.now.unit.now parent place }
        ensures few { IfSome result (λ _. place < 2 ^ 30) }
    {
        look_ups_are_exact::<NameId>();
        if parent >= self.unit.len() {
            return None;
        }
        let children = self.unit.children(parent);
        if place < children.len() {
            Some(children.get(place))
        } else {
            None
        }
    }

    /// The line and the column of the token with this index. Where there is none, those of the beginning.
    pub(crate) fn position(&self, index: u64) -> (u32, u32)
        ensures { result ≡ position_of self.now.tokens.now index }
    {
        match self.tokens.get(index as usize) {
            Some(token) => (token.place.line, token.place.column),
            None => (1, 1),
        }
    }

    /// How a name is spelled.
    pub(crate) fn spelling(&self, name: NameId) -> &'u [u8]
        ensures { result.now ≡ text_of self.now.names.now name }
    {
        if (name.0 as usize) < self.names.len() {
            self.names.spelling(name)
        } else {
            b""
        }
    }
}
