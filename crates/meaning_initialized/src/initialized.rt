// What is proved of nodes that initialize objects, and examples.
ghost use Rattle.meaning_initialized.specs.Examples.{DeclarationExamples, LiteralExamples};
ghost use Rattle.meaning_initialized.specs.Laws.{FoundRowsAreRows, RowsAreUnique, RowsExist};

/// A node that initializes something has one row, where no structure lies in itself; what the plain program finds is that row.
pub fn each_node_has_one_row()
    ensures unique { RowsAreUnique }
    ensures exist { RowsExist }
    ensures found { FoundRowsAreRows }
{}

/// Initializers of declarations of which one can tell by eye what they say.
pub fn worked_declarations()
    ensures { DeclarationExamples }
{}

/// The same of compound literals.
pub fn worked_literals()
    ensures { LiteralExamples }
{}
