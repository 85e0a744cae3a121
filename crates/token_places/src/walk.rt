ghost use Rattle.std.specs.Prelude.{◌≡◌, length, slice_index_or};
ghost use Rattle.token_places.specs.Places.{file_places, stretch};

use crate::cursor::PlaceCursor;
use crate::place::Place;
use std::marker::Model;

/// The places of the addresses of a file that is searched by itself. However many rising addresses are asked for, it passes over the
/// text once.
#[derive(Drop)]
pub struct PlaceWalk<'a> {
    bytes: &'a [u8],
    // the reached address, and its place
    address: u64,
    place: Place,
    // the tokens after it
    cursor: PlaceCursor<'a>,
}

impl<'a> Model for PlaceWalk<'a> {
    ghost use Rattle.std.specs.Prelude.{List, ℕ};
    ghost use Rattle.token_places.specs.Walks.{IsWalk};

    ghost Value = { List ℕ };

    ghost view = { λ w. w.bytes.now };

    ghost invariant = { λ w. IsWalk w.bytes.now w.address w.place w.cursor };
}

impl<'a> PlaceWalk<'a> {
    /// Before the first address of the file with this text.
    pub fn new(bytes: &'a [u8]) -> Self
        ensures { result ≡ bytes.now }
    {
        PlaceWalk {
            bytes,
            address: 0,
            place: Place { from: 0, to: 0 },
            cursor: PlaceCursor::new(bytes),
        }
    }

    /// An independent walk at the same address.
    pub fn copy(&self) -> Self
        ensures { result ≡ self.now }
    {
        PlaceWalk {
            bytes: self.bytes,
            address: self.address,
            place: self.place,
            cursor: self.cursor.copy(),
        }
    }

    /// The address that was asked for last, or 0. For an address after the last token it is that of the last token.
    pub fn reached(&self) -> u64 {
        self.address
    }

    /// The place of an address: in `to be` that of 2 is 3 to 5. An address after the last one has the empty place at the end. If the
    /// address is below the reached one, the walk begins again.
    pub fn place_at(&mut self, address: u64) -> Place
        ensures place { result ≡ slice_index_or (file_places self.old) address (stretch (length self.old) (length self.old)) }
        ensures same { self.new ≡ self.old }
    {
        if address < self.address {
            self.address = 0;
            self.place = Place { from: 0, to: 0 };
            self.cursor = PlaceCursor::new(self.bytes);
        }
        while self.address < address {
            let Some(token) = self.cursor.next() else {
                return Place {
                    from: self.bytes.len(),
                    to: self.bytes.len(),
                };
            };
            self.place = token.place();
            self.address += 1;
        }
        self.place
    }
}
