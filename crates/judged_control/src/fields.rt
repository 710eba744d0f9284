// What control asks, answered by what is known.
ghost use Rattle.judged_control.specs.Judged.{known_of_nodes};

use crate::asked::{case_number_at, constant_at, function_at, is_automatic_at};
use crate::facts::JudgedFacts;
use c_tree::Handle;
use linear_code::{ControlFacts, FunctionNote};

impl<'a> ControlFacts for JudgedFacts<'a> {
    ghost known = { known_of_nodes };

    fn is_automatic(&self, declarator: Handle) -> bool {
        is_automatic_at(self.facts, declarator)
    }

    fn function_at(&self, declarator: u64) -> Option<FunctionNote> {
        function_at(self.types, self.facts, self.objects, declarator)
    }

    fn constant(&self, expression: Handle) -> Option<i128> {
        constant_at(self.types, self.facts, expression)
    }

    fn case_number(&self, statement: Handle) -> i128 {
        case_number_at(
            self.unit,
            self.types,
            self.facts,
            self.enclosings,
            statement,
        )
    }
}
