ghost use Rattle.std.specs.Prelude.{◌≡◌};
ghost use Rattle.standing_query.specs.inner.Sides.{found_of, head_at};

use gcl_model::Interval;

/// Where a list goes on.
#[derive(Clone, Copy)]
pub enum Head {
    /// The first member that ends at this address or later is to be asked for.
    Ending(u64),
    /// The first member that starts at this address or later is to be asked for.
    Starting(u64),
    /// The first member that is left.
    Found(Interval),
    /// No member is left.
    End,
}

impl Head {
    /// Where the list goes on once a member was asked for: none that starts after `high` is of interest.
    pub fn at(found: Option<Interval>, high: u64) -> Head
        ensures { result ≡ head_at found high }
    {
        match found {
            Some(member) => {
                if member.start <= high {
                    Head::Found(member)
                } else {
                    Head::End
                }
            }
            None => Head::End,
        }
    }

    /// The first member that is left, if it is known.
    pub fn found(self) -> Option<Interval>
        ensures { result ≡ found_of self }
    {
        match self {
            Head::Found(member) => Some(member),
            _ => None,
        }
    }
}
