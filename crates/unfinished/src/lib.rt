// The reader of an unfinished hand (02, S-1 and S-14): m melds and 13 - 3m tiles. It takes all input.
#![tactic(auto)]

ghost use Rattle.std.specs.Prelude.{◌≡◌, ◌≤◌, length};
ghost use Rattle.bits.specs.Bits.{bits_of};
ghost use Rattle.hand_record.specs.search.Offsets.{held_in, padding_after};
ghost use Rattle.unfinished.specs.Unfinished.{length_of, pad_of, held_refusal, read_of, given_by, numbered};
ghost use Rattle.refusals.specs.Refusal.{refusal_in};

use hand::Held;
use refusals::Refusal;

// The bytes of an unfinished hand with 0 to 4 melds; a hand's record has others (hand_record).
pub const LENGTHS: [usize; 5] = [11, 9, 8, 7, 6];

// Its padding bits.
pub const PADS: [usize; 5] = [7, 1, 3, 5, 7];

// 2 to 4 of the tiles held, first match wins.
pub fn check(x: Held, padding: u32) -> Result<(), Refusal>
    ensures { refusal_in result ≡ held_refusal x padding }
{
    if hand_refusals::wrong_held(x, padding) {
        return Err(Refusal::Field);
    }
    if hand_refusals::descends(x) {
        return Err(Refusal::Descending);
    }
    let t = hand::held_tally(x);
    if hand_refusals::over_four(t) {
        return Err(Refusal::OverFour);
    }
    Ok(())
}

// The tiles held that an input of m's length is, or why they are refused.
fn given(s: &[u8], m: u8) -> Result<Held, Refusal>
    requires { (m ≤ 4) × (length s.now ≡ length_of m) }
    ensures { numbered result ≡ given_by (held_in 3 m (bits_of s.now)) (padding_after 3 m (pad_of m) (bits_of s.now)) }
{
    let held = hand_record::held_in(s, 3, m);
    let padding = bits::last(s, PADS[m as usize]);
    check(held, padding as u32)?;
    Ok(held)
}

// The tiles held of an unfinished hand, or the first refusal of 1 to 4.
pub fn read(s: &[u8]) -> Result<Held, Refusal>
    ensures { numbered result ≡ read_of s.now }
{
    let n = s.len();
    if n == 0 {
        return Err(Refusal::Length);
    }
    let m = bits::field(s, 0, 3);
    if 4 < m {
        return Err(Refusal::Length);
    }
    if n != LENGTHS[m as usize] {
        return Err(Refusal::Length);
    }
    given(s, m)
}
