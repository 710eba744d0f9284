// A token on its way through an expansion. What becomes of it isn't known here.
use c_tokens::Token;
use number_sets::SetId;
use std::mem::size_of;

/// A token, and the set of the names that aren't replaced in it (C11 6.10.3.4 p2).
#[derive(Clone, Copy)]
pub(crate) struct Item {
    pub(crate) token: Token,
    pub(crate) hides: SetId,
}

// There are millions of them.
const _: () = prove!(size_of::<Item>() <= 24);
