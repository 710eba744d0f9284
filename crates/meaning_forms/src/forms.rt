// What is proved of the trees that units derive.
ghost use Rattle.meaning_forms.specs.laws.Forms.{DerivedListsAreFormed, DerivedTreesAreFormed};
ghost use Rattle.meaning_forms.specs.laws.NodeCounts.{RowsArePaid};

/// Each node of a derived tree has the parts that its kind allows, in their order and roles.
pub fn derived_trees_are_formed()
    ensures trees { DerivedTreesAreFormed }
    ensures lists { DerivedListsAreFormed }
{}

/// No form makes more than three nodes a token: each row of the grammar pays for the nodes that its actions make.
pub fn forms_make_few_nodes()
    ensures rows { RowsArePaid }
{}
