// What a node stands in, where there may be no node with this handle: it stands in nothing then, as the definitions say.
ghost use Rattle.std.specs.Prelude.{◌≡◌, length};
ghost use Rattle.meaning_typing.specs.Surroundings as meaning;
ghost use Rattle.node_surroundings.specs.Seen.{surrounding_seen, surroundings_seen};

use c_tree::{Handle, Unit};
use node_surroundings::{Around, Surrounding, Surroundings, Want};

fn of_unit(root: Handle) -> Surrounding
    ensures { surrounding_seen result ≡ meaning.of_unit root }
{
    Surrounding {
        parent: root,
        place: 0,
        want: Want::ForNothing,
        is_evaluated: true,
        around: Around {
            function: None,
            scope: root,
        },
    }
}

/// What the node with this handle stands in.
pub fn standing_at(unit: &Unit, surroundings: &Surroundings, handle: Handle) -> Surrounding
    requires whole { unit.now.first ≡ 0 }
    requires surroundings { length surroundings.now ≡ length unit.now.nodes }
    ensures { surrounding_seen result ≡ meaning.surrounding_at (surroundings_seen surroundings.now) handle }
{
    let count = unit.len();
    if handle < count {
        surroundings.get(handle)
    } else {
        of_unit(count)
    }
}
