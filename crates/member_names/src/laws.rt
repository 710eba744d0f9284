// What holds of the aggregates of which a member is one.
ghost use Rattle.member_names.specs.Homes.{HomesGoOutwards, HomesMeetAtTheirEnds, LaidUnitsAreParts, PartsHaveParentsBehind};

/// Chains of aggregates that meet go on alike, and end.
pub fn homes_meet_at_their_ends()
    ensures meet { HomesMeetAtTheirEnds }
    ensures outwards { HomesGoOutwards }
    // Parents stand behind their parts in each unit that makes one tree.
    ensures parts { LaidUnitsAreParts }
    ensures parents { PartsHaveParentsBehind }
{}
