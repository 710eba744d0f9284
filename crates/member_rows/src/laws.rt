// What holds of what a table knows of aggregates, and of steps one behind the other, for those who call this crate in a loop.
ghost use Rattle.member_rows.specs.Laws.{AggregatesStay, LayoutsAreKnown, MembersAreKnown, WalksEnd, WalksGoOn};

/// What is known of the aggregates of a table is its layouts and what its names name, and stays when types join it.
#[tactic(auto, using(crate::proofs::AggregateLemmas::told_is, crate::proofs::AggregateLemmas::named_is, crate::proofs::AggregateLemmas::aggregates_stay))]
pub fn aggregates_are_known()
    ensures layouts { LayoutsAreKnown }
    ensures members { MembersAreKnown }
    ensures stay { AggregatesStay }
{}

/// Steps that are taken one by one come to the walk of the definition: what they break, by the least, what fails at them, in their
/// order, and where they lead.
pub fn walks_go_on()
    ensures on { WalksGoOn }
    ensures end { WalksEnd }
{}
