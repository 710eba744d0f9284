// What is proved of functions that change no counts.
ghost use Rattle.linear_code.specs.Quiet.{QuietBodies, QuietPaths};

use meaning_control::{
    bodies_without_changes_pass_none, functions_without_contexts_change_nothing,
};

/// Where no node of the body of a function changes counts, no path of it does.
pub fn quiet_functions_change_nothing()
    ensures bodies { QuietBodies }
    ensures paths { QuietPaths }
{
    functions_without_contexts_change_nothing();
    bodies_without_changes_pass_none();
}
