// What is read, and what waits: all that a step changes. How it does isn't known here.
use crate::looks::Looks;
use crate::pending::Pending;
use c_terminals::Terminals;
use parse_state::ParseState;

/// What was read so far, the terminals that are left, and the items that wait.
#[derive(Drop)]
pub(crate) struct Parser<'t> {
    pub(crate) state: ParseState<'t>,
    pub(crate) terminals: Terminals<'t>,
    pub(crate) pending: Pending,
    // The classes of the next two terminals, while no scope has changed since they were asked.
    pub(crate) looks: Option<Looks>,
}
