// A walk that goes on behind what it met at an item, and a part that is to be filled.
use crate::met::Met;
use crate::parts::Part;
use crate::walk::Walk;

/// A walk that goes on, and what it met.
#[derive(Drop)]
pub struct Going {
    pub walk: Walk,
    pub met: Met,
}

/// A part of the innermost level of a walk, to which designators led.
#[derive(Drop)]
pub struct Arrived {
    pub part: Part,
    pub walk: Walk,
}
