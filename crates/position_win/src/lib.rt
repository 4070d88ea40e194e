// The booking of a win, by value. Any value of the struct may be given; no sum wraps.
#![tactic(auto)]

ghost use Rattle.std.specs.Prelude.{◌≡◌, false, ◌&&◌, not, cond, IfOk, List, ℕ, ◌+◌, ◌≤◌, ◌<◌, ltb, get_or};
ghost use Rattle.std.specs.Option.{ForSome};
ghost use Rattle.std.specs.Result.{result_unwrap_or};
ghost use Rattle.refusals.specs.Refusal.{number, refusal_in as refusal_of};
ghost use Rattle.hand.specs.Refusals.{wrong_discarder};
ghost use Rattle.hand_record.specs.Record.{refusal_in, read_of};
ghost use Rattle.hand_record.specs.search.Bounds.{Bounds};
ghost use Rattle.position.specs.Booking as Booking;
ghost use Rattle.position.specs.Ledger.{last_hand, hand_for, liable_in, holds_four_winds, Moves};
ghost use Rattle.position.specs.search.Feeder.{liable_as};
ghost use Rattle.position.specs.search.Amounts.{most_sticks, Changes, Gifts};
ghost use Rattle.position.specs.search.Form.{Open};
ghost use Rattle.position_win.specs.search.Settling.{SettledAs, IsSettled};

use hand::{Fields, Hand};
use points::Seats;
use position::Position;
use position_form::feeder_of;
use position_payments::Parties;
use refusals::Refusal;
use score::Scored;

// A riichi in the record without a declaration, or the reverse.
// stays a number: the field of the record
fn mismatch(riichi: u8, declared: bool) -> bool
    ensures { result ≡ cond (ltb 0 riichi) (not declared) declared }
{
    (0 < riichi) != declared
}

// The counter after a win, the dealer's or a child's, where there were n.
pub fn counter_after(n: u32, dealers: bool) -> u32
    requires { n ≤ last_hand }
    ensures { result ≡ cond dealers (n + 1) 0 }
{
    if dealers { n + 1 } else { 0 }
}

// Each wind is held three times or more.
fn holds_four_winds(h: Hand) -> bool
    ensures { result ≡ holds_four_winds h }
{
    let t = hand::hand_tally(h);
    (3 <= t[27]) & (3 <= t[28]) & (3 <= t[29]) & (3 <= t[30])
}

// Who is liable for the winner's yaku that is reported: the feeder who is named for it, where one is.
// stays a number: the field of the hand
fn pao_of(p: Position, h: Hand, yaku: [bool; 37]) -> Option<u8>
    requires { h.fields.winner ≤ 3 }
    ensures { liable_as result ≡ liable_in p h.fields.winner (get_or yaku 28 false) (get_or yaku 29 false && holds_four_winds h) }
{
    let winner = h.fields.winner;
    if yaku[28] {
        return feeder_of(p, winner, 28);
    }
    if yaku[29] {
        if holds_four_winds(h) {
            return feeder_of(p, winner, 29);
        }
    }
    None
}

// What a win comes to: the winner and what it gives each seat.
#[derive(Clone, Copy)]
pub struct Settled {
    pub winner: u8,
    pub gives: [i32; 4],
}

// Why a hand that read scores nothing, by Score's number.
fn unscored(n: u8) -> Refusal
    requires { (6 ≤ n) × (n ≤ 7) }
    ensures { number result ≡ n }
{
    if n == 6 {
        Refusal::NoReading
    } else {
        Refusal::NoYaku
    }
}

// What the win of a record that read comes to, by its fields, what it scores, and who is liable for the yaku that is reported.
// stays numbers: the fields of the hand
fn settle_scored(
    p: Position,
    f: Fields,
    v: Scored,
    feeder: Option<u8>,
    n: u32,
    k: u32,
) -> Result<Settled, Refusal>
    requires { Open p × (f.winner ≤ 3) × (f.discarder ≤ 3) × (wrong_discarder f ≡ false) × Changes v.changes × ForSome feeder (λ x. (x ≤ 3) × (f.winner ≡ x → ⊥)) × (n ≤ last_hand) × (k ≤ most_sticks) × (0 < v.refusal → 6 ≤ v.refusal) × (v.refusal ≤ 7) }
    ensures { SettledAs p f v feeder n k result }
{
    if 0 < v.refusal {
        return Err(unscored(v.refusal));
    }
    let winner = f.winner;
    if mismatch(f.riichi, 0 < p.declared[usize::from(winner)]) {
        return Err(Refusal::Riichi);
    }
    let seats = Seats {
        winner,
        dealer: p.dealer,
        discarder: f.discarder,
    };
    let parties = Parties {
        seats,
        ron: f.how == 1,
        feeder,
    };
    let c = position_payments::won(parties, v.changes);
    let a = position_payments::added(parties, n);
    let gives = position_payments::winnings(c, a, winner, k);
    Ok(Settled { winner, gives })
}

// The settling of one win in an open position, by its hand, the winner taking n counters and k sticks: the hand's best reading and the counters are paid, by
// article 67 with pao. Refused with Score's 6 and 7; 11, a riichi in the record without a declaration of the winner, or the reverse.
pub fn settle_hand(p: Position, h: Hand, n: u32, k: u32) -> Result<Settled, Refusal>
    requires { Open p × Bounds h × (n ≤ last_hand) × (k ≤ most_sticks) }
    ensures gifts { IfOk result (λ t. Gifts t.gives) }
    ensures by_index { (s : List ℕ) → refusal_in (read_of s).answer ≡ 0 → h ≡ hand_for s → IsSettled p s n k result }
{
    let v = score::score_hand(h, p.dealer, p.wind);
    let feeder = pao_of(p, h, v.yaku);
    settle_scored(p, h.fields, v, feeder, n, k)
}

// The settling of one win by its record: refused with Read's 1 to 5, then as its hand is.
fn settle(p: Position, s: &[u8], n: u32, k: u32) -> Result<Settled, Refusal>
    requires { Open p × (n ≤ last_hand) × (k ≤ most_sticks) }
    ensures { IsSettled p s.now n k result }
{
    let h = hand_record::read(s).hand()?;
    settle_hand(p, h, n, k)
}

// Win: the record is settled, and the winner takes the counters and the sticks. Refused with 9, a position that is not open; then as its settling is.
pub fn win(p: Position, s: &[u8]) -> Result<Position, Refusal>
    ensures { Moves p (Booking.result (Booking.win s.now)) (refusal_of result) (result_unwrap_or result p) }
{
    if position_form::not_open(p) {
        return Err(Refusal::NotOpen);
    }
    let t = settle(p, s, p.counter, p.sticks)?;
    let dealers = t.winner == p.dealer;
    let after = position_moves::finish(p, t.gives, 0, !dealers, counter_after(p.counter, dealers));
    Ok(after)
}
