// The lowest score that a game from a fresh one can reach (theorem `lowest_score`), by a run: in each of 200 hands seat 1 discards a tile on which the
// three others win with a yakuman, at 48,000 to the dealer, 32,000 to each of the two children, and 300 for each of the counters, 0 in the first hand to
// 199 in the last. Before it seat 1 declares riichi, which costs it 1,000 in the first hand and is refused with 21 in the others, since it has no 1,000
// left. Seat 1 then has 30,000 - 1,000 - 200 * 112,000 - 300 * 19,900 = -28,341,000, and the game is over. The floor, -28,540,000, has a stick in each
// hand.
#![tactic(auto)]

use position::Position;
use std::io;

// Thirteen orphans won from seat 1 by seats 0, 2 and 3.
const WINS: [u8; 39] = [
    136, 30, 0, 0, 65, 40, 164, 211, 110, 58, 243, 240, 66, 200, 30, 0, 0, 65, 40, 164, 211, 110,
    58, 243, 240, 66, 232, 30, 0, 0, 65, 40, 164, 211, 110, 58, 243, 240, 66,
];

// The position after a hand: seat 1's riichi, refused or not, and the three wins.
fn hand_of(g: Position) -> Position {
    let h = position_bookings::riichi(g, 1).unwrap_or(g);
    position_multi_ron::multi_ron(h, 3, &WINS).unwrap_or(h)
}

// Prints the first n bytes.
// stays with a length: text::line says how many bytes it wrote
fn put<R: Print>(rt: &R, line: &[u8], n: usize) -> io::Result<()> {
    if n <= line.len() {
        rt.write_all(&line[..n])?;
    }
    Ok(())
}

// Prints a line of `tally`.
// stays numbers: what the program tally prints
fn show<R: Print>(rt: &R, g: Position, entry: u32, letter: u8, refusal: u8) -> io::Result<()> {
    let mut line = [0u8; 96];
    let n = text::line(&mut line, entry, letter, refusal, g.scores, g.sticks);
    put(rt, &line, n)
}

fn main(rt: HostRuntime) -> io::Result<()> {
    let mut g = position_bookings::fresh_position();
    // stays a range: as many hands as a game has
    for _ in 0..200 {
        g = hand_of(g);
    }
    show(&rt, g, 400, b'M', 0)?;
    let after = position_bookings::draw(g, 0);
    show(&rt, after.unwrap_or(g), 401, b'D', refusals::number(after))
}
