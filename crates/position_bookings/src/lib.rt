// Riichi, pao, draw and chombo in a position, by value. Any value of the struct may be given; no sum wraps.
#![tactic(auto)]

ghost use Rattle.std.specs.Prelude.{◌≡◌, false, ◌&&◌, not, ◌≤◌, eqb, pos, get_or};
ghost use Rattle.std.specs.Int.Signed.{lt_z};
ghost use Rattle.std.specs.Result.{result_unwrap_or};
ghost use Rattle.refusals.specs.Refusal.{refusal_in};
ghost use Rattle.tiles.specs.Below.{tabulate};
ghost use Rattle.position.specs.Booking as Booking;
ghost use Rattle.position.specs.Ledger.{is_set, fresh, is_ready, wrong_pao, Moves};

use position::Position;
use position_form::{any_true, each_seat};
use refusals::Refusal;

// A position with no booking yet: 30,000 points a seat, all else 0.
pub fn fresh_position() -> Position
    ensures { result ≡ fresh }
{
    Position {
        scores: [30000; 4],
        sticks: 0,
        declared: [0; 4],
        dealer: 0,
        wind: 0,
        hands: 0,
        over: 0,
        counter: 0,
        feeders: [0; 8],
    }
}

// The seat has under 1,000 points.
// stays a number: a booking names a seat so, and has tested it
fn lacks_stick(s: [i32; 4], seat: u8) -> bool
    requires { seat ≤ 3 }
    ensures { result ≡ lt_z (get_or s seat (pos 0)) (pos 1000) }
{
    s[usize::from(seat)] < 1000
}

// Riichi: the seat declares. Refused with 8, a seat over 3; 9, a position that is not open; 10, a seat that has declared already; 21, one with under 1,000
// points.
pub fn riichi(p: Position, seat: u8) -> Result<Position, Refusal>
    ensures { Moves p (Booking.riichi seat) (refusal_in result) (result_unwrap_or result p) }
{
    if 3 < seat {
        return Err(Refusal::Argument);
    }
    if position_form::not_open(p) {
        return Err(Refusal::NotOpen);
    }
    let again = 0 < p.declared[usize::from(seat)];
    if again {
        return Err(Refusal::Declared);
    }
    if lacks_stick(p.scores, seat) {
        return Err(Refusal::Stick);
    }
    Ok(position_moves::put_stick(p, seat))
}

// Which seats are ready.
fn ready(bits: u8) -> [bool; 4]
    ensures { result ≡ tabulate 4 0 (is_ready bits) }
{
    each_seat(|i| (bits >> (3 - i)) % 2 == 1)
}

// Which declared seats are not ready.
fn at_fault(d: [u8; 4], b: [bool; 4]) -> [bool; 4]
    ensures { result ≡ tabulate 4 0 (λ i. is_set (get_or d i 0) && not (get_or b i false)) }
{
    each_seat(|i| (0 < d[i]) & !b[i])
}

// The seat alone.
fn only(seat: u8) -> [bool; 4]
    ensures { result ≡ tabulate 4 0 (λ i. eqb i seat) }
{
    each_seat(|i| i == usize::from(seat))
}

// Draw: bits set for ready, seat 0's first; the counter rises. Where a declared seat is not ready it is a chombo of each such seat.
// Refused with 8, bits over 15; 9, a position that is not open.
// stays beside the draw of game_bookings, which books this one in a game
pub fn draw(p: Position, bits: u8) -> Result<Position, Refusal>
    ensures { Moves p (Booking.result (Booking.draw bits)) (refusal_in result) (result_unwrap_or result p) }
{
    if 15 < bits {
        return Err(Refusal::Argument);
    }
    if position_form::not_open(p) {
        return Err(Refusal::NotOpen);
    }
    let b = ready(bits);
    let f = at_fault(p.declared, b);
    if any_true(f) {
        return Ok(position_moves::penalise(p, f));
    }
    let passes = !b[usize::from(p.dealer)];
    Ok(position_moves::finish(
        p,
        position_payments::shares(b),
        p.sticks,
        passes,
        p.counter + 1,
    ))
}

// Chombo: the seat pays the others, and this hand's sticks go back. Refused with 8, a seat over 3; 9, a position that is not open.
pub fn chombo(p: Position, seat: u8) -> Result<Position, Refusal>
    ensures { Moves p (Booking.result (Booking.chombo seat)) (refusal_in result) (result_unwrap_or result p) }
{
    if 3 < seat {
        return Err(Refusal::Argument);
    }
    if position_form::not_open(p) {
        return Err(Refusal::NotOpen);
    }
    Ok(position_moves::penalise(p, only(seat)))
}

// The feeder cannot be named: the holder is the feeder, the yaku is neither 28 nor 29, or the holder has a feeder for it already.
// stays numbers: a booking names seats and yaku so, and has tested the holder
fn wrong_pao(p: Position, holder: u8, feeder: u8, yaku: u8) -> bool
    requires { holder ≤ 3 }
    ensures { result ≡ wrong_pao p holder feeder yaku }
{
    if (holder == feeder) | !((yaku == 28) | (yaku == 29)) {
        return true;
    }
    position_form::feeder_of(p, holder, yaku).is_some()
}

// Pao: the feeder of a holder's yaku, 28 or 29, is named for this hand. Refused with 8, a seat over 3; 9, a position that is not open;
// 18, a holder who is the feeder, another yaku, or one that is named already.
pub fn pao(p: Position, holder: u8, feeder: u8, yaku: u8) -> Result<Position, Refusal>
    ensures { Moves p (Booking.pao holder feeder yaku) (refusal_in result) (result_unwrap_or result p) }
{
    if (3 < holder) | (3 < feeder) {
        return Err(Refusal::Argument);
    }
    if position_form::not_open(p) {
        return Err(Refusal::NotOpen);
    }
    if wrong_pao(p, holder, feeder, yaku) {
        return Err(Refusal::Pao);
    }
    Ok(position_moves::name_feeder(p, holder, feeder, yaku))
}
