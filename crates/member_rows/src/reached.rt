// Where the steps of an offset have led, and what one more finds (C11 7.19 p3).
ghost use Rattle.std.specs.Prelude.{◌≡◌};
ghost use Rattle.member_rows.specs.Steps.{first_reached, gone_to, stopped_at};

use expression_rows::Broken;
use sparse_model::{Failure, TypeId};

/// Where the steps so far have led.
#[derive(Clone, Copy, Debug, PartialEq, Eq)]
pub struct Reached {
    pub of: TypeId,
    /// How many bits a bit-field has.
    pub width: Option<u32>,
    /// How many bytes lie before it; none where an anonymous member on the way has no layout, or they are more than an object has.
    pub bytes: Option<u64>,
    /// Whether of each index something is known.
    pub is_known: bool,
}

/// What a step finds. Behind a broken one nothing is known, and no step follows it.
#[derive(Clone, Copy)]
pub struct OffsetStep {
    pub reached: Option<Reached>,
    /// The least constraint that it breaks.
    pub broken: Option<Broken>,
    pub failure: Option<Failure>,
}

impl Reached {
    /// The begin of an object of the type that is named, before the first step.
    pub fn begin(of: TypeId) -> Reached
        ensures { result ≡ first_reached of }
    {
        Reached {
            of,
            width: None,
            bytes: Some(0),
            is_known: true,
        }
    }
}

impl OffsetStep {
    /// It is broken, so it leads nowhere.
    pub fn stopped(broken: Option<Broken>, failure: Option<Failure>) -> OffsetStep
        ensures { result ≡ stopped_at broken failure }
    {
        OffsetStep {
            reached: None,
            broken,
            failure,
        }
    }

    /// It leads there.
    pub fn goes_to(reached: Reached, failure: Option<Failure>) -> OffsetStep
        ensures { result ≡ gone_to reached failure }
    {
        OffsetStep {
            reached: Some(reached),
            broken: None,
            failure,
        }
    }
}
