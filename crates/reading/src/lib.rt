// Readings of the concealed tiles with the winning tile. What they are is said in specs/; what a search for them tests stands in `reading_steps`.
#![tactic(auto)]

ghost use Rattle.std.specs.Prelude.{◌≡◌};
ghost use Rattle.reading.specs.Reading.{of_shape};

// A reading: shape 0 regular, 1 seven pairs, 2 thirteen orphans. groups: the 4 - m codes in order, then 68 in each place that a meld takes.
// A shape without a pair has pair 34; place 0 is the pair, i + 1 the group at i.
// All four stay numbers: `key_of` and `IsReading` of specs/ hold them, and C is given them (include/herbassolh.h).
#[derive(Clone, Copy, PartialEq, Eq)]
pub struct Reading {
    pub shape: u8,
    pub pair: u8,
    pub groups: [u8; 4],
    pub place: u8,
}

// The reading of a shape without groups: seven pairs (1) or thirteen orphans (2).
pub fn of_shape(shape: u8) -> Reading
    ensures { result ≡ of_shape shape }
{
    Reading {
        shape,
        pair: 34,
        groups: [68, 68, 68, 68],
        place: 0,
    }
}
