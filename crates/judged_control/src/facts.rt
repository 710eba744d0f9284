// What is known of a unit that was judged, as control asks it.
use c_tree::{Handle, Unit};
use c_types::Types;
use control_flow::ContextNote;
use judged_objects::JudgedObjects;
use node_facts::NodeFacts;
use node_surroundings::Surroundings;
use statement_judge::Enclosings;
use std::marker::Model;

/// What is known of the nodes of a unit that was judged, and of its objects. Its value is the nodes, what they stand in and what is
/// known of them, over the table of types.
#[derive(Drop)]
pub struct JudgedFacts<'a> {
    pub(crate) unit: &'a Unit,
    surroundings: &'a Surroundings,
    pub(crate) types: &'a Types,
    pub(crate) facts: &'a NodeFacts,
    pub(crate) enclosings: &'a Enclosings,
    pub(crate) objects: &'a JudgedObjects,
}

impl<'a> Model for JudgedFacts<'a> {
    ghost use Rattle.judged_control.specs.Judged.{IsJudged, JudgedNodes};

    ghost Value = { JudgedNodes };

    ghost view = { λ judged. record { unit = judged.unit.now; surroundings = judged.surroundings.now; types = judged.types.now; facts = judged.facts.now } };

    ghost invariant = { λ judged. IsJudged (record { unit = judged.unit.now; surroundings = judged.surroundings.now; types = judged.types.now; facts = judged.facts.now }) judged.enclosings.now judged.objects.now };
}

impl<'a> JudgedFacts<'a> {
    ghost use Rattle.std.specs.Prelude.{◌≡◌, option_map};
    ghost use Rattle.linear_code.specs.Known.{note_of};
    ghost use Rattle.judged_control.specs.Judged.{IsJudged, JudgedNodes, known_of_nodes};

    /// What a judge knows of a unit: of each node what it stands in, what is known of it and which statements are around it, and of
    /// the objects what `judged_objects` found.
    pub fn new(
        unit: &'a Unit,
        surroundings: &'a Surroundings,
        types: &'a Types,
        facts: &'a NodeFacts,
        enclosings: &'a Enclosings,
        objects: &'a JudgedObjects,
    ) -> JudgedFacts<'a>
        requires { IsJudged (record { unit = unit.now; surroundings = surroundings.now; types = types.now; facts = facts.now }) enclosings.now objects.now }
        ensures { result ≡ record { unit = unit.now; surroundings = surroundings.now; types = types.now; facts = facts.now } }
    {
        JudgedFacts {
            unit,
            surroundings,
            types,
            facts,
            enclosings,
            objects,
        }
    }

    /// The counts with which the object or function of a declarator is entered and left, where it has contexts.
    pub fn contexts(&self, declarator: Handle) -> Option<ContextNote>
        ensures { result ≡ option_map note_of ((known_of_nodes self.now).contexts declarator) }
    {
        self.objects.note_of(self.facts, declarator).contexts
    }
}
