ghost use Rattle.std.specs.Prelude.{◌≡◌, IfSome};
ghost use Rattle.cm_receiving.specs.Places.{LineStandsIn};

use arrayvec::ArrayVec;
use cm_receiving::BusName;
use std::marker::{Model, PhantomData};

/// A line that was typed: it stands in what the reader of typed lines holds, at its place. Only who has read it can make
/// one. Contracts see its bytes and the place.
#[derive(Drop)]
pub struct TypedLine<B: BusName> {
    line: ArrayVec<u8, 128>,
    place: u64,
    of: PhantomData<B>,
}

impl<B: BusName> Model for TypedLine<B> {
    ghost use Rattle.cm_receiving.specs.Places.{LineStandsIn, PlacedLine};

    ghost Value = { PlacedLine };

    ghost view = { λ l. record { place = l.place; line = l.line.items } };

    ghost invariant = { λ l. LineStandsIn B.typed l.place l.line.items };
}

impl<B: BusName> TypedLine<B> {
    /// The line of these bytes at this place; there is none of more than 128.
    pub(crate) fn new(place: u64, bytes: &[u8]) -> Option<TypedLine<B>>
        requires { LineStandsIn B.typed place bytes.now }
        ensures { IfSome result (λ l. l ≡ record { place = place; line = bytes.now }) }
    {
        let line = ArrayVec::try_from(bytes).ok()?;
        Some(TypedLine {
            line,
            place,
            of: PhantomData,
        })
    }

    /// The bytes of the line, without the one that ends it.
    pub fn line(&self) -> &[u8]
        ensures line { result.now ≡ self.now.line }
        ensures stands { LineStandsIn B.typed self.now.place self.now.line }
    {
        self.line.as_slice()
    }

    /// The place of the byte that ends the line.
    pub fn place(&self) -> u64
        ensures { result ≡ self.now.place }
    {
        self.place
    }
}
