// What holds of the aggregates with a const member, for those who tell bodies and make types between one row and the next.
ghost use Rattle.whole_rows.specs.Laws.{ConstAggregatesBegin, ConstAggregatesStay};

/// A table without bodies has no aggregate with a const member, and those of another one stay when types join it.
pub fn const_aggregates_are_known()
    ensures begin { ConstAggregatesBegin }
    ensures stay { ConstAggregatesStay }
{}
