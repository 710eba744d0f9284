// Multiples of a step.
ghost use Rattle.std.specs.Prelude.{◌≡◌, ◌<◌, ◌≤◌, ◌+◌, ◌^◌};
ghost use Rattle.meaning_layout.specs.Placing.{next_multiple};

/// The next multiple of a step, or the number itself where it is one.
pub fn next_multiple(step: u64, number: u64) -> u64
    requires some { 0 < step }
    requires few { number + step ≤ 2 ^ 63 }
    ensures next { result ≡ next_multiple step number }
    ensures least { number ≤ result }
    ensures few { result < number + step }
{
    (number + (step - 1)) / step * step
}
