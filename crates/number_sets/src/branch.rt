// One set, as its two halves, or as its one number.
ghost use Rattle.std.specs.Prelude.{◌≡◌, ◌-◌, ◌+◌, ◌<◌, ◌^◌};
ghost use Rattle.number_sets.specs.Branches.{bits_of};

/// The set of no number.
pub const EMPTY: u32 = 0;

/// How many sets have no branch: that of no number, and those of one number alone.
pub const PLAIN_SETS: u32 = 1_073_741_825;

/// A set whose greatest number has this bit as its highest. The numbers with the bit are in the upper
/// set, less the bit, and the others in the lower one.
#[derive(Clone, Copy, Debug, PartialEq, Eq, Hash)]
pub struct Branch {
    pub bit: u32,
    pub lower: u32,
    pub upper: u32,
}

/// The number that has one bit alone.
pub fn half(bit: u32) -> u32
    requires { bit < 30 }
    ensures { result ≡ 2 ^ bit }
{
    1 << bit
}

/// The set of one number alone.
pub fn single(number: u32) -> u32
    requires { number < 2 ^ 30 }
    ensures { result ≡ number + 1 }
{
    number + 1
}

/// How many bits the number of such a set has; that of no number has none.
pub fn plain_levels(set: u32) -> u32
    requires { set < 1073741825 }
    ensures { result ≡ bits_of (set - 1) }
{
    if set == EMPTY {
        return 0;
    }
    32 - (set - 1).leading_zeros()
}
