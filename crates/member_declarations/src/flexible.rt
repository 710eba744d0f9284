// Which member of a body may be an array without a length (C11 6.7.2.1 p18): the parts of a list of members in, what is kept of them
// out. A body is gone through once, and then each of its declarators is asked for. Types aren't known here.
ghost use Rattle.std.specs.Prelude.{◌≡◌, ◌<◌, ◌+◌, ◌&&◌, None, drop};
ghost use Rattle.vocabulary.specs.declared.node_kind.NodeKind.TheVariants.{MemberDeclaration};
ghost use Rattle.meaning_tree.specs.Laid.{IsLaid};
ghost use Rattle.meaning_tree.specs.Nodes.{end_of};
ghost use Rattle.meaning_typing.specs.Declarators as declarators;
ghost use Rattle.meaning_typing.specs.MemberDeclarations.{member_entries, pending_from};
ghost use Rattle.meaning_typing.specs.MemberRows as meaning;
ghost use Rattle.meaning_typing.specs.Surroundings.{surrounding_at};
ghost use Rattle.meaning_typing.specs.Units.{kind_at as kind_of};
ghost use Rattle.decl_judge.specs.Units.{handles_of, nodes_of};
ghost use Rattle.node_surroundings.specs.Seen.{AreSurroundingsOf, surroundings_seen};
ghost use Rattle.member_declarations.specs.Flexible.{IsToldOf, flexible_over, has_named_besides, has_member_besides, is_last_at, last_entry, named_over, nothing_kept, with_declaration, with_name, with_name_of, with_part};

use crate::anonymous::has_tagless;
use crate::bit_fields::has_name;
use c_tree::{Handle, Unit};
use decl_judge::{kind_at, node_at};
use node_surroundings::Surroundings;
use sparse_model::NodeKind;
use tag_list::TagList;

/// The declarators with names that a body has.
#[derive(Clone, Copy, Debug, PartialEq, Eq)]
pub enum NamedMembers {
    /// None.
    None,
    /// This one alone.
    One(Handle),
    /// Two or more.
    Several,
}

/// The last declarator of a declaration, which stands at this place among the parts of its list.
#[derive(Clone, Copy, Debug, PartialEq, Eq)]
pub struct LastMember {
    pub place: u32,
    pub declarator: Handle,
}

/// What is kept of a body to tell which of its members may be flexible.
#[derive(Clone, Copy, Debug, PartialEq, Eq)]
pub struct FlexiblePlace {
    /// The last declarator of the last declaration that declares members, unless that declares a member without one.
    pub last: Option<LastMember>,
    /// Those with names.
    pub named: NamedMembers,
    /// A structure or union without a tag is a member.
    pub has_anonymous: bool,
}

// The declarators of one declaration.
#[derive(Clone, Copy, Debug, PartialEq, Eq)]
struct DeclaredMembers {
    last: Option<Handle>,
    named: NamedMembers,
}

impl NamedMembers {
    // With one more.
    fn with_name(self, declarator: Handle) -> NamedMembers
        ensures { result ≡ with_name self declarator }
    {
        match self {
            NamedMembers::None => NamedMembers::One(declarator),
            NamedMembers::One(first) => {
                if first == declarator {
                    self
                } else {
                    NamedMembers::Several
                }
            }
            NamedMembers::Several => NamedMembers::Several,
        }
    }

    // Whether one of them is another one than this.
    fn has_besides(self, declarator: Handle) -> bool
        ensures { result ≡ has_named_besides self declarator }
    {
        match self {
            NamedMembers::None => false,
            NamedMembers::One(first) => declarator != first,
            NamedMembers::Several => true,
        }
    }
}

// With a declarator, if it has a name.
fn with_name_of(unit: &Unit, named: NamedMembers, declarator: Handle) -> NamedMembers
    requires { unit.now.first ≡ 0 }
    ensures { result ≡ with_name_of (nodes_of unit.now) named declarator }
{
    if has_name(unit, declarator) {
        named.with_name(declarator)
    } else {
        named
    }
}

fn is_declarator(kind: NodeKind) -> bool
    ensures { result ≡ declarators.is_declarator kind }
{
    match kind {
        NodeKind::Declarator => true,
        _ => false,
    }
}

// The declarators among the parts of a declaration, of which the first one is its specifiers.
fn declared_among(unit: &Unit, named: NamedMembers, parts: &TagList) -> DeclaredMembers
    requires { unit.now.first ≡ 0 }
    ensures last { result.last ≡ last_entry None (pending_from (nodes_of unit.now) (drop 1 (handles_of parts.now))).entries }
    ensures named { result.named ≡ named_over (nodes_of unit.now) named (pending_from (nodes_of unit.now) (drop 1 (handles_of parts.now))).entries }
{
    let mut declared = DeclaredMembers { last: None, named };
    let mut parts = parts.iter();
    parts.next();
    for (part, _) in parts {
        if is_declarator(kind_at(unit, part)) {
            declared = DeclaredMembers {
                last: Some(part),
                named: with_name_of(unit, declared.named, part),
            };
        }
    }
    declared
}

fn declared_by(unit: &Unit, named: NamedMembers, declaration: Handle) -> DeclaredMembers
    requires { unit.now.first ≡ 0 }
    ensures last { result.last ≡ last_entry None (member_entries (nodes_of unit.now) declaration) }
    ensures named { result.named ≡ named_over (nodes_of unit.now) named (member_entries (nodes_of unit.now) declaration) }
{
    match node_at(unit, declaration) {
        Some(node) => declared_among(unit, named, &node.children),
        None => DeclaredMembers { last: None, named },
    }
}

impl FlexiblePlace {
    // Of no parts.
    fn nothing() -> FlexiblePlace
        ensures { result ≡ nothing_kept }
    {
        FlexiblePlace {
            last: None,
            named: NamedMembers::None,
            has_anonymous: false,
        }
    }

    // With a declaration of members at this place behind them.
    fn with_declaration(self, unit: &Unit, place: u32, declaration: Handle) -> FlexiblePlace
        requires { unit.now.first ≡ 0 }
        ensures { result ≡ with_declaration (nodes_of unit.now) place declaration self (member_entries (nodes_of unit.now) declaration) }
    {
        let declared = declared_by(unit, self.named, declaration);
        match declared.last {
            Some(declarator) => FlexiblePlace {
                last: Some(LastMember { place, declarator }),
                named: declared.named,
                has_anonymous: self.has_anonymous,
            },
            None => {
                if has_tagless(unit, declaration) {
                    FlexiblePlace {
                        last: None,
                        named: self.named,
                        has_anonymous: true,
                    }
                } else {
                    self
                }
            }
        }
    }

    // With a part at this place behind them.
    fn with_part(self, unit: &Unit, place: u32, part: Handle) -> FlexiblePlace
        requires { unit.now.first ≡ 0 }
        ensures { result ≡ with_part (nodes_of unit.now) place part self }
    {
        match kind_at(unit, part) {
            NodeKind::MemberDeclaration => self.with_declaration(unit, place, part),
            _ => self,
        }
    }

    fn among(unit: &Unit, parts: &TagList) -> FlexiblePlace
        requires { unit.now.first ≡ 0 }
        ensures { result ≡ flexible_over (nodes_of unit.now) 0 nothing_kept (handles_of parts.now) }
    {
        let mut kept = FlexiblePlace::nothing();
        let mut place = 0;
        for (part, _) in parts.iter() {
            kept = kept.with_part(unit, place, part);
            place += 1;
        }
        kept
    }

    /// What is kept of the body with this list of members. It takes a step for each part of its declarations, and for each of their
    /// specifiers, and none for what stands in a body in it.
    pub fn body_of(unit: &Unit, list: Handle) -> FlexiblePlace
        requires { unit.now.first ≡ 0 }
        ensures { IsToldOf (nodes_of unit.now) list result }
    {
        match node_at(unit, list) {
            Some(node) => FlexiblePlace::among(unit, &node.children),
            None => FlexiblePlace::nothing(),
        }
    }

    // Whether the last member is declared by this declarator, in a declaration at this place.
    fn is_last(self, declarator: Handle, place: u32) -> bool
        ensures { result ≡ is_last_at self.last declarator place }
    {
        match self.last {
            Some(last) => place == last.place && declarator == last.declarator,
            None => false,
        }
    }

    // Whether there is another member than that of this declarator.
    fn has_besides(self, declarator: Handle) -> bool
        ensures { result ≡ has_member_besides self declarator }
    {
        self.has_anonymous || self.named.has_besides(declarator)
    }
}

fn is_structure(kind: NodeKind) -> bool
    ensures { result ≡ meaning.is_structure kind }
{
    match kind {
        NodeKind::StructSpecifier => true,
        _ => false,
    }
}

// Whether it is the last member, in a declaration at this place of a list below a specifier of this kind, and there is another one.
fn is_flexible_in(kind: NodeKind, body: FlexiblePlace, declarator: Handle, place: u32) -> bool
    ensures { result ≡ (meaning.is_structure kind && (is_last_at body.last declarator place && has_member_besides body declarator)) }
{
    is_structure(kind) && body.is_last(declarator, place) && body.has_besides(declarator)
}

/// Whether the member of this declarator may be an array without a length: it is the last one of a structure that has another one.
/// What is kept is that of the body in which its declaration stands. It takes a few steps.
pub fn may_be_flexible(
    unit: &Unit,
    surroundings: &Surroundings,
    body: FlexiblePlace,
    declarator: Handle,
    declaration: Handle,
) -> bool
    requires whole { unit.now.first ≡ 0 }
    requires laid { IsLaid unit.now }
    requires surroundings { AreSurroundingsOf unit.now surroundings.now }
    requires part { declaration + 1 < end_of unit.now }
    requires kind { kind_of (nodes_of unit.now) declaration ≡ MemberDeclaration }
    requires body { IsToldOf (nodes_of unit.now) (surrounding_at (surroundings_seen surroundings.now) declaration).parent body }
    ensures { result ≡ meaning.may_be_flexible (nodes_of unit.now) (surroundings_seen surroundings.now) declarator declaration }
{
    let standing = surroundings.get(declaration);
    let specifier = surroundings.get(standing.parent).parent;
    is_flexible_in(kind_at(unit, specifier), body, declarator, standing.place)
}
