// How an accepted booking moves a position (01, The game; 02, S-5, S-7 and S-8): a hand is finished, by a chombo too, a seat puts its stick, or a feeder
// is named. The position is open, so that no sum wraps.
#![tactic(auto)]

ghost use Rattle.std.specs.Prelude.{◌≡◌, false, ◌||◌, ◌+◌, ◌≤◌, eqb, get_or, set};
ghost use Rattle.tiles.specs.Below.{tabulate};
ghost use Rattle.position.specs.Booking as Booking;
ghost use Rattle.position.specs.Ledger.{is_set, mark, feeder_index, is_last, chombo_of, effect_of, applied};
ghost use Rattle.position.specs.search.After.{dealer_after, wind_after};
ghost use Rattle.position.specs.search.Form.{Open};
ghost use Rattle.position.specs.search.Amounts.{Small, paid};
ghost use Rattle.position_moves.specs.search.Finished.{finished};

use position::{LAST_HAND, Position};
use position_form::{count_true, each_seat, feeder_index, set_marks};

// The scores with what each seat is given; also what two wins give each seat.
pub fn pay(s: [i32; 4], by: [i32; 4]) -> [i32; 4]
    requires { Small s × Small by }
    ensures { result ≡ paid s by }
{
    each_seat(|i| s[i] + by[i])
}

// The deal is South's seat 3's: the last of the game.
fn is_last(p: Position) -> bool
    ensures { result ≡ is_last p }
{
    (p.wind == 1) & (p.dealer == 3)
}

// The dealer after a hand.
fn next_dealer(p: Position, passes: bool) -> u8
    requires { p.dealer ≤ 3 }
    ensures { result ≡ dealer_after p passes }
{
    if passes & !is_last(p) {
        (p.dealer + 1) % 4
    } else {
        p.dealer
    }
}

// The wind after a hand.
fn next_wind(p: Position, passes: bool) -> u8
    ensures { result ≡ wind_after p passes }
{
    if passes & (p.dealer == 3) { 1 } else { p.wind }
}

// The hand is finished: what it gives is paid, declarations and feeders are cleared, the deal passes or stays; the sticks and the counter are those given.
pub fn finish(p: Position, by: [i32; 4], sticks: u32, passes: bool, counter: u32) -> Position
    requires { Open p × Small by }
    ensures { result ≡ finished p by sticks passes counter }
{
    let hands = p.hands + 1;
    Position {
        scores: pay(p.scores, by),
        sticks,
        declared: [0; 4],
        dealer: next_dealer(p, passes),
        wind: next_wind(p, passes),
        hands,
        over: u8::from((passes & is_last(p)) | (hands == LAST_HAND)),
        counter,
        feeders: [0; 8],
    }
}

// The hand is finished by a chombo of the seats f: they pay, this hand's sticks go back, and the deal and the counter stay.
pub fn penalise(p: Position, f: [bool; 4]) -> Position
    requires { Open p }
    ensures { result ≡ applied p (chombo_of p (λ i. get_or f i false)) }
{
    let b = set_marks(p.declared);
    let by = position_payments::penalties(f, b);
    finish(p, by, p.sticks - count_true(b), false, p.counter)
}

// The marks with that of the seat set.
fn declare(d: [u8; 4], seat: u8) -> [u8; 4]
    ensures { result ≡ tabulate 4 0 (λ i. mark (eqb i seat || is_set (get_or d i 0))) }
{
    each_seat(|i| u8::from((i == usize::from(seat)) | (0 < d[i])))
}

// The seat declares, and puts a stick on the table.
pub fn put_stick(p: Position, seat: u8) -> Position
    requires { Open p }
    ensures { result ≡ applied p (effect_of p (Booking.riichi seat)) }
{
    Position {
        scores: pay(p.scores, position_payments::stakes(seat)),
        sticks: p.sticks + 1,
        declared: declare(p.declared, seat),
        over: 0,
        ..p
    }
}

// The marks, each 0 or 1.
fn marks(d: [u8; 4]) -> [u8; 4]
    ensures { result ≡ tabulate 4 0 (λ i. mark (is_set (get_or d i 0))) }
{
    each_seat(|i| u8::from(0 < d[i]))
}

// The feeders with the one of the holder's yaku set.
// stays numbers: a booking names seats and yaku so, and has tested them
fn named(f: [u8; 8], holder: u8, feeder: u8, yaku: u8) -> [u8; 8]
    requires { (holder ≤ 3) × (feeder ≤ 3) × (28 ≤ yaku) × (yaku ≤ 29) }
    ensures { result ≡ set f (feeder_index holder yaku) (1 + feeder) }
{
    let mut n = f;
    n[feeder_index(holder, yaku)] = 1 + feeder;
    n
}

// The holder's yaku has a feeder from now on.
// stays numbers: a booking names seats and yaku so, and has tested them
pub fn name_feeder(p: Position, holder: u8, feeder: u8, yaku: u8) -> Position
    requires { Open p × (holder ≤ 3) × (feeder ≤ 3) × (28 ≤ yaku) × (yaku ≤ 29) }
    ensures { result ≡ applied p (effect_of p (Booking.pao holder feeder yaku)) }
{
    Position {
        scores: pay(p.scores, [0; 4]),
        declared: marks(p.declared),
        over: 0,
        feeders: named(p.feeders, holder, feeder, yaku),
        ..p
    }
}
