// A position of the game: the fields with which the ledger is kept. What they mean, the ledger and what demand 3 says of a win are in specs/; crates
// `position_bookings`, `position_win` and `position_multi_ron` have the bookings.
#![tactic(auto)]

// Scores of seats 0 to 3; sticks on the table; for each seat 0, or another number where it has declared riichi in this hand; dealer;
// wind, 0 East, 1 South; finished hands; 0, or another number where the game is marked over; repeat counters; for each seat as the holder of yaku 28,
// then of 29, 0, or 1 + the feeder that is named in this hand. Every byte pattern is a position.
#[repr(C)]
#[derive(Clone, Copy)]
pub struct Position {
    pub scores: [i32; 4],
    pub sticks: u32,
    pub declared: [u8; 4],
    pub dealer: u8,
    pub wind: u8,
    pub hands: u8,
    pub over: u8,
    pub counter: u32,
    pub feeders: [u8; 8],
}

// "200 hands finished" (01, The game): `last_hand` of specs/Ledger.
pub const LAST_HAND: u8 = 200;

// "the floor of a score" (02, S-6): `floor` of specs/Ledger.
pub const FLOOR: i32 = -28540000;

// "scores plus 1,000 times sticks" (01, The game): `points_in_play` of specs/Ledger.
pub const POINTS_IN_PLAY: i64 = 120000;
