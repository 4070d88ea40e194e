// Whether a tally is a pair and groups (01, Readings; 02, S-9).
#![tactic(auto)]

ghost use Rattle.std.specs.Prelude.{◌≡◌, true, false, ◌↔◌, suc, ◌-◌, ◌≤◌, length, get_or};
ghost use Rattle.reading_splits.specs.Splits.{Splits};
ghost use Rattle.reading_splits.specs.search.SplitsInto.{lowest as lowest_of, splits_into};

// The tally is so many groups. The lowest tile, which is not below `from`, is in a triplet where there are three of it, else in a run.
fn is_groups(t: [u8; 34], from: u8, pieces: usize) -> bool
    requires { (from ≤ 34) × (lowest_of (34 - from) from t ≡ lowest_of 34 0 t) }
    ensures { result ≡ splits_into pieces false t }
{
    if pieces == 0 {
        return reading_steps::is_empty(t);
    }
    let Some(k) = reading_steps::next_kind(&t, from) else {
        return false;
    };
    let three = 3 <= t[k as usize];
    if three {
        return is_groups(reading_steps::without(t, 34 + k), k, pieces - 1);
    }
    if reading_steps::fits(t, k) {
        return is_groups(reading_steps::without(t, k), k, pieces - 1);
    }
    false
}

// The tally is a pair and n groups, which use every tile exactly once: each kind that can be the pair is tried.
pub fn splits(t: [u8; 34], n: u8) -> bool
    ensures variant { (result ≡ true) ↔ Splits n (λ k. get_or t k 0) }
    ensures value { result ≡ splits_into (suc n) true t }
{
    for k in reading_steps::pairs_in(&t) {
        let k = k as usize;
        let held = 2 <= t[k];
        if held && is_groups(reading_steps::without_pair(t, k), 0, n as usize) {
            return true;
        }
    }
    false
}
