// By how much a context statement changes the count of contexts.
ghost use Rattle.std.specs.Prelude.{◌≡◌, pos};
ghost use Rattle.vocabulary.specs.declared.int_kind.IntKind.TheVariants as integers;
ghost use Rattle.meaning_constants.specs.Numbers.{wrapped};

/// What a context statement adds, by the number that its node keeps: a negative one is kept as its remainder by 2^64.
pub fn added(number: u64) -> i64
    ensures { result ≡ wrapped integers.Long (pos number) }
{
    number.cast_signed()
}
