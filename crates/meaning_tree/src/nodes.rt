// What is proved of trees that stand in lists of nodes, while the lists grow.
ghost use Rattle.meaning_tree.specs.examples.Trees.{NodeExamples, PartExamples};
ghost use Rattle.meaning_tree.specs.examples.Forms.{FormExamples};
ghost use Rattle.meaning_tree.specs.examples.Laid.{LaidExamples};
ghost use Rattle.meaning_tree.specs.laws.Laid.{RunsAreLaid};
ghost use Rattle.meaning_tree.specs.laws.Trees.{AddedNodeGrows, AddedNodeStands, AddedNodeStandsBehind, FurtherChildStands, GrowthIsReflexive, GrowthIsTransitive, JoinedPartGrows, JoinedStandBefore, LookUpsAreExact, NoTreesCome, NothingStandsBefore, PartsAreUnique, PartsStay, TreesAreUnique, TreesExist, TreesStay, TreesStayBehind, TreesStayInFront};

/// A node stands for at most one tree, and for one where children stand before their parents.
pub fn each_node_stands_for_one_tree<Spelling>()
    ensures unique { TreesAreUnique Spelling }
    ensures unique_parts { PartsAreUnique Spelling }
    ensures exist { TreesExist Spelling }
{}

/// Lists grow by nothing, by a node, by a part, and by what they grow by one after the other.
pub fn lists_grow<Spelling>()
    ensures by_nothing { GrowthIsReflexive Spelling }
    ensures in_turn { GrowthIsTransitive Spelling }
    ensures by_node { AddedNodeGrows Spelling }
    ensures by_part { JoinedPartGrows Spelling }
{}

/// A node's tree doesn't change when nodes are added.
pub fn trees_stay<Spelling>()
    ensures stay { TreesStay Spelling }
    ensures parts_stay { PartsStay Spelling }
    ensures none_come { NoTreesCome Spelling }
{}

/// Nor when a list takes in a part that begins where the list ends.
pub fn trees_stay_in_joined_lists<Spelling>()
    ensures in_front { TreesStayInFront Spelling }
    ensures behind { TreesStayBehind Spelling }
{}

/// A node that is added stands for the tree of its fields and of what its children stand for.
pub fn added_nodes_stand<Spelling>()
    ensures node { AddedNodeStands Spelling }
    ensures child { FurtherChildStands Spelling }
{}

/// Children stand before their parents in lists that grow by nodes or parts in which they do.
pub fn order_is_kept<Spelling>()
    ensures nothing { NothingStandsBefore Spelling }
    ensures node { AddedNodeStandsBehind Spelling }
    ensures part { JoinedStandBefore Spelling }
{}

/// A handle is looked up as the node that it has.
pub fn look_ups_are_exact<Spelling>()
    ensures { LookUpsAreExact Spelling }
{}

/// A list whose nodes were added tree by tree, each behind its parts, is laid.
pub fn runs_are_laid<Spelling>()
    ensures { RunsAreLaid Spelling }
{}

/// A short list of nodes stands for the tree that one can tell by eye, and parts keep their order.
pub fn worked_examples()
    ensures nodes { NodeExamples }
    ensures parts { PartExamples }
    ensures forms { FormExamples }
    ensures laid { LaidExamples }
{}
