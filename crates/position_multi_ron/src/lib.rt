// Multiple ron (02, S-6), by value: one to three rons on one tile, booked together. Any value of the position and any bytes may be given; no sum wraps.
#![tactic(auto)]

ghost use Rattle.std.specs.Prelude.{◌≡◌, cond, IfOk, List, map, ℕ, ◌≤◌, take};
ghost use Rattle.std.specs.Result.{result_unwrap_or};
ghost use Rattle.refusals.specs.Refusal.{refusal_in};
ghost use Rattle.hand_rons.specs.Records.{hand_for};
ghost use Rattle.hand_rons.specs.search.Read.{AllRead};
ghost use Rattle.position.specs.Booking as Booking;
ghost use Rattle.position.specs.Ledger.{Moves};
ghost use Rattle.position.specs.search.Form.{Open};
ghost use Rattle.position.specs.search.Amounts.{Small};
ghost use Rattle.position_multi_ron.specs.search.Settled.{AllBounds, SettlesAll, BooksHands};

use hand::Hand;
use position::Position;
use position_win::Settled;
use refusals::Refusal;

// n for the first winner, else none.
fn to_foremost(foremost: bool, n: u32) -> u32
    ensures { (result ≡ cond foremost n 0) × (result ≤ n) }
{
    if foremost { n } else { 0 }
}

// The settling of so many hands, the counters and the sticks going to the seat `first`: what they give in all, or the refusal of the first that meets one.
// stays an array with its number: what hand_rons gives
fn settle_all(p: Position, first: u8, number: u8, hands: [Hand; 3]) -> Result<Settled, Refusal>
    requires { Open p × (number ≤ 3) × AllBounds number hands }
    ensures small { IfOk result (λ t. Small t.gives) }
    ensures by_index { (rs : List (List ℕ)) → AllRead rs → map hand_for rs ≡ take number hands → SettlesAll p first rs result }
{
    let mut by = [0; 4];
    for &h in &hands[..usize::from(number)] {
        let foremost = h.fields.winner == first;
        let settled = position_win::settle_hand(
            p,
            h,
            to_foremost(foremost, p.counter),
            to_foremost(foremost, p.sticks),
        );
        by = position_moves::pay(by, settled?.gives);
    }
    Ok(Settled {
        winner: first,
        gives: by,
    })
}

// The wins of so many hands, rons on one tile, in an open position.
// stays an array with its number: what hand_rons gives
fn book_rons(p: Position, number: u8, hands: [Hand; 3]) -> Result<Position, Refusal>
    requires { Open p × (1 ≤ number) × (number ≤ 3) × AllBounds number hands }
    ensures { BooksHands p number hands (refusal_in result) (result_unwrap_or result p) }
{
    let first = hand_rons::first_after(hands[0].fields.discarder, number, hands);
    let t = settle_all(p, first, number, hands)?;
    let dealers = hand_rons::is_winner(number, hands, p.dealer);
    let after = position_moves::finish(
        p,
        t.gives,
        0,
        !dealers,
        position_win::counter_after(p.counter, dealers),
    );
    Ok(after)
}

// Multiple ron: so many records that lie end to end, each but the last as long as its m says, the last all that is left; all are booked or none.
// Refused with 9, a position that is not open; 17, no record or over three; Read's refusal of the first that does not read;
// 17, one that is not ron, two with one winner, or two that differ in discarder, winning tile, indicator or situation; 6, 7 or 11 of the first that meets one.
pub fn multi_ron(p: Position, number: u8, s: &[u8]) -> Result<Position, Refusal>
    ensures { Moves p (Booking.result (Booking.multi_ron number s.now)) (refusal_in result) (result_unwrap_or result p) }
{
    if position_form::not_open(p) {
        return Err(Refusal::NotOpen);
    }
    if (number == 0) | (3 < number) {
        return Err(Refusal::MultiRon);
    }
    let hands = hand_rons::read_all(number, s)?;
    if hand_rons::not_on_one_tile(number, hands) {
        return Err(Refusal::MultiRon);
    }
    book_rons(p, number, hands)
}
