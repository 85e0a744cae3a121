ghost use Rattle.std.specs.Prelude.{◌≡◌};
ghost use Rattle.file_answers.specs.Searched.{passage_of};

use gcl_model::Interval;
use passages::Passage;
use std::marker::Model;
use token_places::PlaceWalk;

/// Moves a walk to where another one is, if that is nearer to an address.
fn catch_up<'a>(walk: &mut PlaceWalk<'a>, other: &PlaceWalk<'a>, address: u64)
    requires alike { walk.old ≡ other.now }
    ensures same { walk.new ≡ walk.old }
{
    if walk.reached() < other.reached() && other.reached() <= address {
        *walk = other.copy();
    }
}

/// The bytes that the members of a list cover. Each member starts and ends later than the one before, so a walk over the
/// starts and one over the ends only go forward. Each continues from where the other is if that is nearer: the text is
/// passed over once, and once more where members overlap.
#[derive(Drop)]
pub struct MemberPlaces<'a> {
    starts: PlaceWalk<'a>,
    ends: PlaceWalk<'a>,
}

impl<'a> Model for MemberPlaces<'a> {
    ghost use Rattle.std.specs.Prelude.{◌≡◌, ℕ, List};

    ghost Value = { List ℕ };

    ghost view = { λ w. w.starts };

    ghost invariant = { λ w. w.ends ≡ w.starts };
}

impl<'a> MemberPlaces<'a> {
    /// Before the first member of a list over this file.
    pub fn new(bytes: &'a [u8]) -> Self
        ensures { result ≡ bytes.now }
    {
        MemberPlaces {
            starts: PlaceWalk::new(bytes),
            ends: PlaceWalk::new(bytes),
        }
    }

    /// From the first byte of the member's first token to the last byte of its last token.
    pub fn passage_of(&mut self, member: Interval) -> Passage
        ensures passage { result ≡ passage_of self.old member }
        ensures same { self.new ≡ self.old }
    {
        catch_up(&mut self.starts, &self.ends, member.start);
        let from = self.starts.place_at(member.start).from;
        catch_up(&mut self.ends, &self.starts, member.end);
        Passage {
            from,
            to: self.ends.place_at(member.end).to,
        }
    }
}
