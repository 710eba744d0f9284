// What is proved of nodes under the ids of a table that begins with what the tokens spell.
ghost use Rattle.unit_names.specs.Nodes.{NodesAreThoseOfTheirTree};

/// Nodes that stand as they are written, with names that the tokens spell, are seen as those of the tokens and the tree.
pub fn nodes_are_those_of_their_tree()
    ensures { NodesAreThoseOfTheirTree }
{}
