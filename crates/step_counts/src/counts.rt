// What is known of the counts with which paths come to a place.
ghost use Rattle.std.specs.Prelude.{◌≡◌};

/// The counts with which paths come to a place.
///
/// Each step moves different counts to different ones, so what is several stays so along a path, and no more
/// has to be kept of them.
#[derive(Clone, Copy)]
pub enum Counts {
    /// No path comes there.
    Never,
    /// Each path comes with this count.
    One(i64),
    /// Two paths come with different counts.
    Several,
}

impl Counts {
    ghost use Rattle.step_counts.specs.Counts.{HasRoom, grown, shifted};

    /// The counts behind a change.
    pub fn shifted(self, by: i64) -> Counts
        requires { HasRoom self by }
        ensures { result ≡ shifted self by }
    {
        match self {
            Counts::Never => Counts::Never,
            Counts::One(count) => Counts::One(count + by),
            Counts::Several => Counts::Several,
        }
    }

    /// The counts where these come too, if they are more.
    pub fn grown(self, comes: Counts) -> Option<Counts>
        ensures { result ≡ grown self comes }
    {
        match (self, comes) {
            (Counts::Never, Counts::Never) => None,
            (Counts::Never, Counts::One(count)) => Some(Counts::One(count)),
            (Counts::Never, Counts::Several) => Some(Counts::Several),
            (Counts::One(_), Counts::Never) => None,
            (Counts::One(count), Counts::One(other)) => {
                if count == other {
                    None
                } else {
                    Some(Counts::Several)
                }
            }
            (Counts::One(_), Counts::Several) => Some(Counts::Several),
            (Counts::Several, _) => None,
        }
    }
}
