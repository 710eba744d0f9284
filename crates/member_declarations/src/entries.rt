// Members among the parts of their declaration (C11 6.7.2.1): a width in, to which declarator it belongs out. What stands between the
// two is passed over; types and names aren't known here.
ghost use Rattle.std.specs.Prelude.{◌≡◌, ◌<◌, ◌≤◌, ◌+◌, length, option_map};
ghost use Rattle.meaning_tree.specs.Laid.{IsLaid};
ghost use Rattle.meaning_tree.specs.Nodes.{end_of};
ghost use Rattle.vocabulary.specs.declared.node_kind.NodeKind.TheVariants.{BitFieldWidth};
ghost use Rattle.meaning_typing.specs.MemberDeclarations.{member_entries};
ghost use Rattle.meaning_typing.specs.MemberRows as meaning;
ghost use Rattle.meaning_typing.specs.Surroundings.{surrounding_at};
ghost use Rattle.meaning_typing.specs.Units.{children_at, kind_at as kind_of};
ghost use Rattle.decl_judge.specs.Units.{handles_of, nodes_of};
ghost use Rattle.node_surroundings.specs.Seen.{AreSurroundingsOf, surroundings_seen};
ghost use Rattle.member_declarations.specs.Entries.{declarator_before, member_part};

use c_tree::{Handle, Unit};
use decl_judge::{kind_at, node_at};
use node_surroundings::Surroundings;
use sparse_model::NodeKind;
use tag_list::TagList;

/// What a part of a declaration of members is.
#[derive(Clone, Copy, Debug, PartialEq, Eq)]
pub enum MemberPart {
    /// A declarator, behind which stands what belongs to its member.
    Declarator,
    /// The width of a bit-field. Of those behind one declarator the first counts.
    Width,
    /// None of these.
    Other,
}

fn member_part(kind: NodeKind) -> MemberPart
    ensures { result ≡ member_part kind }
{
    match kind {
        NodeKind::Declarator => MemberPart::Declarator,
        NodeKind::BitFieldWidth => MemberPart::Width,
        _ => MemberPart::Other,
    }
}

// The last declarator before a place, unless a width stands between. The specifiers, which stand first, are no part of a member.
fn declarator_before(unit: &Unit, parts: &TagList, place: u32) -> Option<Handle>
    requires whole { unit.now.first ≡ 0 }
    requires place { place ≤ length parts.now }
    ensures { result ≡ declarator_before (nodes_of unit.now) (handles_of parts.now) place }
{
    for before in (1..place).rev() {
        let (part, _) = parts.get(before);
        match member_part(kind_at(unit, part)) {
            MemberPart::Declarator => return Some(part),
            MemberPart::Width => return None,
            MemberPart::Other => {}
        }
    }
    None
}

fn declarator_before_place(unit: &Unit, declaration: Handle, place: u32) -> Option<Handle>
    requires whole { unit.now.first ≡ 0 }
    requires place { place < length (children_at (nodes_of unit.now) declaration) }
    ensures { result ≡ declarator_before (nodes_of unit.now) (children_at (nodes_of unit.now) declaration) place }
{
    match node_at(unit, declaration) {
        Some(node) => declarator_before(unit, &node.children, place),
        None => None,
    }
}

/// The declarator to which a width belongs, if it belongs to one. It takes a step for each part between the two.
pub fn declarator_of_width(
    unit: &Unit,
    surroundings: &Surroundings,
    width: Handle,
) -> Option<Handle>
    requires whole { unit.now.first ≡ 0 }
    requires laid { IsLaid unit.now }
    requires surroundings { AreSurroundingsOf unit.now surroundings.now }
    requires part { width + 1 < end_of unit.now }
    requires kind { kind_of (nodes_of unit.now) width ≡ BitFieldWidth }
    ensures { result ≡ option_map (λ entry. entry.declarator) (meaning.entry_with_width width (member_entries (nodes_of unit.now) (surrounding_at (surroundings_seen surroundings.now) width).parent)) }
{
    let standing = surroundings.get(width);
    declarator_before_place(unit, standing.parent, standing.place)
}
