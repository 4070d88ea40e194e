// The game, the record that the handset lends to each booking (01, The game; 02, S-10). What its fields mean, and demand 3, are in specs/; crate
// `game_bookings` has the bookings.
#![tactic(auto)]

use position::Position;

// The position that stands; the earlier one; 0, or another number where a correction can supersede the last booking left standing, which finished a hand:
// then the earlier position is the one in which that booking was made. Every byte pattern is a game.
#[repr(C)]
#[derive(Clone, Copy)]
pub struct Game {
    pub now: Position,
    pub earlier: Position,
    pub correctable: u32,
}
