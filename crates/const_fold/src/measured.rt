// What a node asks of the sizes of types.
ghost use Rattle.const_fold.specs.Measured.{MeasuringIsEnough};

/// The bytes that a node asks for are enough: by them it has the constant that it has by the sizes of all types.
#[tactic(auto, using(crate::proofs::MeasureLemmas::measuring_is_enough))]
pub fn measuring_is_enough()
    ensures { MeasuringIsEnough }
{}
