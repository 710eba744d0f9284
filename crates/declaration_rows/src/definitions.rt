// Definitions (C11 6.9 p3, p5): a declaration and the names that were defined before in, the second definition of a name out. Names
// that are defined are kept in a set, so that one more costs one look-up.
ghost use Rattle.std.specs.Prelude.{◌≡◌, ◌++◌, ◌∷◌, ◌||◌, ◌&&◌, [], List, OnErr, OnOk, length, nat_eq, option_map};
ghost use Rattle.sparse_model.specs.declared.ids.NameId.{NameId};
ghost use Rattle.meaning_rules.specs.Rules.{least_broken};
ghost use Rattle.meaning_typing.specs.DeclarationRows as meaning;
ghost use Rattle.meaning_typing.specs.Facts as facts;
ghost use Rattle.meaning_typing.specs.Surroundings as around;
ghost use Rattle.c_types.specs.Table.{TypeTable};
ghost use Rattle.decl_judge.specs.Units.{nodes_of};
ghost use Rattle.expression_rows.specs.Rows.{broken_seen};
ghost use Rattle.node_facts.specs.Facts.{declared_seen, node_seen};
ghost use Rattle.node_surroundings.specs.Seen.{surrounding_seen};
ghost use Rattle.declaration_rows.specs.Kept.{AreDefined, is_among};

use crate::objects::defines;
use c_tree::{Handle, Unit};
use decl_judge::token_at;
use expression_rows::Broken;
use indexmap::IndexSet;
use node_facts::{DeclaredFact, NodeFact};
use node_surroundings::Surrounding;
use sparse_model::{ErrorKind, NameId};
use std::alloc::{AllocError, Global};
use std::marker::Model;

/// The names with linkage that are defined. Its value is the list of them, each once.
#[derive(Drop)]
pub struct DefinedNames {
    // The hasher has a fixed seed, so names that were chosen to collide cost time, and nothing else.
    names: IndexSet<NameId>,
}

impl Model for DefinedNames {
    ghost use Rattle.std.specs.Prelude.{List};
    ghost use Rattle.sparse_model.specs.declared.ids.NameId.{NameId};

    ghost Value = { List NameId };

    ghost view = { λ defined. defined.names.keys };
}

impl DefinedNames {
    ghost use Rattle.meaning_typing.specs.Units.{UnitNodes};

    /// No names, in no memory.
    pub fn new(alloc: Global) -> DefinedNames
        ensures none { result ≡ [] }
        ensures before { (nodes : UnitNodes) (surroundings : List around.Surrounding) → AreDefined nodes surroundings [] result }
    {
        DefinedNames {
            names: IndexSet::new(alloc),
        }
    }

    /// Whether a name is one of them.
    pub fn contains(&self, name: NameId) -> bool
        ensures { result ≡ is_among name self.now }
    {
        self.names.contains(&name)
    }

    // One name more, if it is none of them.
    fn define(&mut self, name: NameId) -> Result<(), AllocError>
        ensures ok { OnOk result ((other : NameId) → is_among other self.new ≡ is_among other self.old || nat_eq other.0 name.0) }
        ensures err { OnErr result (self.new ≡ self.old) }
    {
        self.names.insert(name)?;
        Ok(())
    }

    /// The next node is known, which stands so: a name with linkage that it defines is kept. A refusal, which is want of memory,
    /// changes nothing.
    pub fn keep(
        &mut self,
        unit: &Unit,
        surrounding: Surrounding,
        fact: NodeFact,
    ) -> Result<(), AllocError>
        requires { unit.now.first ≡ 0 }
        ensures kept { OnOk result ((table : TypeTable) (surroundings : List around.Surrounding) (known : List facts.Fact) → around.surrounding_at surroundings (length known) ≡ surrounding_seen surrounding → AreDefined (nodes_of unit.now) surroundings known self.old → AreDefined (nodes_of unit.now) surroundings (known ++ node_seen table fact ∷ []) self.new) }
        ensures err { OnErr result (self.new ≡ self.old) }
    {
        match fact {
            NodeFact::Declared(declaration) => {
                self.keep_declaration(unit, surrounding, declaration)
            }
            NodeFact::Unknown => Ok(()),
            NodeFact::Expression(_) => Ok(()),
            NodeFact::Specified(_) => Ok(()),
            NodeFact::NamedType(_) => Ok(()),
        }
    }

    fn keep_declaration(
        &mut self,
        unit: &Unit,
        surrounding: Surrounding,
        declaration: DeclaredFact,
    ) -> Result<(), AllocError>
        requires { unit.now.first ≡ 0 }
        ensures ok { OnOk result ((other : NameId) → is_among other self.new ≡ is_among other self.old || ((declaration.has_linkage && nat_eq other.0 declaration.name.0) && meaning.defines (nodes_of unit.now) (surrounding_seen surrounding))) }
        ensures err { OnErr result (self.new ≡ self.old) }
    {
        if declaration.has_linkage && defines(unit, surrounding) {
            self.define(declaration.name)
        } else {
            Ok(())
        }
    }
}

// Whether a declaration defines one of these names with linkage.
fn is_defined_again(
    unit: &Unit,
    defined: &DefinedNames,
    surrounding: Surrounding,
    declaration: DeclaredFact,
) -> bool
    requires { unit.now.first ≡ 0 }
    ensures { result ≡ (declaration.has_linkage && (meaning.defines (nodes_of unit.now) (surrounding_seen surrounding) && is_among declaration.name defined.now)) }
{
    declaration.has_linkage && defines(unit, surrounding) && defined.contains(declaration.name)
}

/// The constraint that the declaration at a node breaks which stands so and defines a name that was defined before it.
pub fn definition_broken(
    unit: &Unit,
    defined: &DefinedNames,
    handle: Handle,
    surrounding: Surrounding,
    declaration: DeclaredFact,
) -> Option<Broken>
    requires { unit.now.first ≡ 0 }
    ensures { (table : TypeTable) (surroundings : List around.Surrounding) (known : List facts.Fact) → length known ≡ handle → around.surrounding_at surroundings handle ≡ surrounding_seen surrounding → AreDefined (nodes_of unit.now) surroundings known defined.now → option_map broken_seen result ≡ least_broken (meaning.definition_broken (nodes_of unit.now) surroundings known handle (declared_seen table declaration)) }
{
    if !is_defined_again(unit, defined, surrounding, declaration) {
        return None;
    }
    Some(Broken {
        constraint: ErrorKind::DefinedTwice,
        token: token_at(unit, handle),
        name: declaration.name,
    })
}
