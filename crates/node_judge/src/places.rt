// Which members may be arrays without a length (C11 6.7.2.1 p18), body by body: a list of members in, what is kept of it out. A body is
// gone through when it is asked first. Types aren't known here.
ghost use Rattle.std.specs.Prelude.{◌≡◌, IfOk, OnOk};
ghost use Rattle.meaning_typing.specs.Units.{UnitNodes};
ghost use Rattle.decl_judge.specs.Units.{nodes_of};
ghost use Rattle.member_declarations.specs.Flexible.{IsToldOf};
ghost use Rattle.node_judge.specs.Places.{ArePlaces};

use c_tree::{Handle, Unit};
use indexmap::IndexMap;
use member_declarations::FlexiblePlace;
use std::alloc::{AllocError, Global};

/// What is kept of the bodies of which a member was asked.
#[derive(Drop)]
pub struct FlexiblePlaces {
    /// By the handle of the list of members.
    bodies: IndexMap<Handle, FlexiblePlace>,
}

impl FlexiblePlaces {
    /// Of no body, in no memory.
    pub fn new(alloc: Global) -> FlexiblePlaces
        ensures { (nodes : UnitNodes) → ArePlaces nodes result }
    {
        FlexiblePlaces {
            bodies: IndexMap::new(alloc),
        }
    }

    /// What is kept of the body with this list of members. It takes one look-up, and for the first member of a body the steps of
    /// [`FlexiblePlace::body_of`].
    pub fn of(&mut self, unit: &Unit, list: Handle) -> Result<FlexiblePlace, AllocError>
        requires whole { unit.now.first ≡ 0 }
        requires kept { ArePlaces (nodes_of unit.now) self.old }
        ensures told { IfOk result (IsToldOf (nodes_of unit.now) list) }
        ensures kept { OnOk result (ArePlaces (nodes_of unit.now) self.new) }
    {
        if let Some(body) = self.bodies.get(&list) {
            return Ok(*body);
        }
        let body = FlexiblePlace::body_of(unit, list);
        self.bodies.insert(list, body)?;
        Ok(body)
    }
}
