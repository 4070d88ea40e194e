// How far an unfinished hand is from ready (02, S-14): its tallies, the nearest ready tally, and that written out as tiles. It takes all input.
#![tactic(auto)]

ghost use Rattle.std.specs.Prelude.{◌≡◌, ◌≤◌, get_or};
ghost use Rattle.tiles.specs.Below.{sum_below};
ghost use Rattle.tiles.specs.Tally.{tally_of};
ghost use Rattle.hand.specs.Held.{in_melds};
ghost use Rattle.unfinished.specs.Unfinished.{refusal_of};
ghost use Rattle.ready.specs.Answer.{fewest_swaps};
ghost use Rattle.ready.specs.Ready.{SameMelds, IsNearest, IsAnswer};
ghost use Rattle.ready.specs.search.Written.{same_melds_with, Written};

use hand::Held;

// What the call gives: 0, the fewest swaps and a ready hand that many swaps away, its tiles in order and zeros after them; or the refusal and zeros.
#[repr(C)]
#[derive(Clone, Copy)]
pub struct Ready {
    // stays a byte: what C is given (include/herbassolh.h)
    pub refusal: u8,
    pub swaps: u8,
    pub hand: [u8; 13],
}

// The tiles of the melds: those held without the concealed ones.
fn melds_tally(x: Held) -> [u8; 34]
    ensures { result ≡ tally_of (in_melds x) }
{
    let others = hand::others_tally(x);
    let mut melds = hand::held_tally(x);
    for (k, n) in melds.iter_mut().enumerate() {
        *n -= others[k];
    }
    melds
}

// A tally as tiles in order, zeros after them.
fn written(tally: [u8; 34]) -> [u8; 13]
    requires { sum_below 34 (λ k. get_or tally k 0) ≤ 13 }
    ensures { Written tally 34 0 (sum_below 34 (λ k. get_or tally k 0)) result }
{
    let mut tiles = [0u8; 13];
    let mut i = 0;
    // stays a range: the number of the kind is what is written
    for k in 0..34u8 {
        // stays a range: a tile for each number below how many there are
        for j in 0..tally[usize::from(k)] {
            tiles[i] = k;
            i += 1;
        }
    }
    tiles
}

// The nearest ready hand of tiles held that are not refused.
// stays with its bound of m: a Held is what C is given and has no invariant
fn nearest_to(x: Held) -> Ready
    requires { (x.m ≤ 4) × SameMelds x x }
    ensures { (result.refusal ≡ 0) × IsNearest x result.swaps (same_melds_with x result.hand) }
{
    let n = ready_nearest::nearest(hand::others_tally(x), melds_tally(x), x.m);
    let u = n.hand;
    Ready {
        refusal: 0,
        swaps: n.swaps,
        hand: written(u),
    }
}

// The fewest swaps until an unfinished hand is ready, with a ready hand that many swaps away.
pub fn find(s: &[u8]) -> Ready
    ensures refusal_value { (result.refusal ≡ refusal_of s.now) × (result.swaps ≡ fewest_swaps s.now) }
    ensures answer { IsAnswer s.now result }
{
    match unfinished::read(s) {
        Ok(held) => nearest_to(held),
        Err(r) => Ready {
            refusal: u8::from(r),
            swaps: 0,
            hand: [0u8; 13],
        },
    }
}
