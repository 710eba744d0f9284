// What is proved of values that are stored.
ghost use Rattle.meaning_machine.specs.laws.Runs.{AdoptedValuesFit};

/// What a store makes of a value that fits some type fits the type of the place.
#[tactic(auto, using(crate::proofs::Adopting::adopted_values_fit))]
pub fn adopted_values_fit()
    ensures { AdoptedValuesFit }
{}
