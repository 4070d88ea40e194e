// The groups of a hand with its melds, and what yaku and fu both ask of them: value tiles, waits, pinfu. The codes may be any.
#![tactic(auto)]

ghost use Rattle.std.specs.Prelude.{◌≡◌, ◌&&◌, not, cond, ◌<◌, ◌≤◌, ◌-◌, ◌%◌, get_or, ltb, count_by, Some, None};
ghost use Rattle.tiles.specs.Below.{all};
ghost use Rattle.tiles.specs.Groups.{is_run};
ghost use Rattle.yaku_basics.specs.Melds.{meld_code, meld_way};
ghost use Rattle.yaku_basics.specs.search.Ways.{ways_at};
ghost use Rattle.yaku_basics.specs.Tests.{has as has_of, is_value, dragons as dragons_of, little_dragons, value_han, earns_wait};

use units::Han;

// The groups that are triplets of dragons: white, hatsu, chun.
const DRAGONS: [u8; 3] = [65, 66, 67];

// The group of a meld byte, 64 * kind + tile.
pub fn meld_code(meld: u8) -> u8
    ensures { result ≡ meld_code meld }
{
    if meld / 64 == 0 {
        meld % 64
    } else {
        34 + meld % 64
    }
}

// The way of a meld byte.
pub fn meld_way(meld: u8) -> u8
    ensures { result ≡ meld_way meld }
{
    (meld / 64).max(1)
}

// The place among the groups of the triplet or run that the winning tile completes by ron, which is open then; the pair's place is 0.
pub fn opened_by_ron(ron: bool, place: u8) -> Option<usize>
    ensures { result ≡ cond (ron && ltb 0 place) (Some (place - 1)) None }
{
    if ron & (0 < place) {
        Some(usize::from(place - 1))
    } else {
        None
    }
}

// The ways of the groups, where the winning tile completes the one at `place`: by ron it is open.
#[tactic(auto, unfolding(crate::specs::search::Ways::ways_at))]
pub fn ways_at(ways: [u8; 4], ron: bool, place: u8) -> [u8; 4]
    requires { place ≤ 4 }
    ensures { result ≡ ways_at ways ron place }
{
    let mut u = ways;
    if let Some(i) = opened_by_ron(ron, place) {
        u[i] = 1;
    }
    u
}

// The group c is among the four.
pub fn has(g: [u8; 4], c: u8) -> bool
    ensures { result ≡ has_of g c }
{
    g.contains(&c)
}

// How many of these groups are among the four.
pub fn how_many(g: [u8; 4], codes: &[u8]) -> usize
    ensures { result ≡ count_by (has_of g) codes.now }
{
    // a loop: `filter` and `count` take ten times what it takes (36 instructions more for three codes), which Score's cost does not allow
    let mut n = 0;
    for c in codes {
        n += usize::from(has(g, *c));
    }
    n
}

// The kind is a value tile: a dragon, the round wind or the own wind.
pub fn is_value(round: u8, own: u8, k: u8) -> bool
    ensures { result ≡ is_value round own k }
{
    (31..=33).contains(&k) | (k == round) | (k == own)
}

// How many dragon triplets there are.
pub fn dragons(g: [u8; 4]) -> u8
    ensures value { result ≡ dragons_of g }
    ensures upper_bound { result ≤ 3 }
{
    how_many(g, &DRAGONS) as u8
}

// Yaku 24: two dragon triplets and a dragon pair.
#[tactic(auto, unfolding(crate::specs::Tests::little_dragons))]
pub fn little_dragons(g: [u8; 4], pair: u8) -> bool
    ensures { result ≡ little_dragons g pair }
{
    (dragons(g) == 2) & (31..=33).contains(&pair)
}

// The han that yaku 3 counts: 1 for each triplet of dragons, of the round wind, of the own wind. With yaku 24, `little`, the dragons are left out.
#[tactic(auto, unfolding(crate::specs::Tests::value_han))]
pub fn value_han(g: [u8; 4], round: u8, own: u8, little: bool) -> Han
    requires { (round < 34) × (own < 34) }
    ensures result_value { result.0 ≡ value_han g round own little }
    ensures result_bound { result.0 ≤ 5 }
{
    let dragons = if little { 0 } else { dragons(g) };
    units::han_of(dragons + u8::from(has(g, 34 + round)) + u8::from(has(g, 34 + own)))
}

// The wait earns fu, where the winning tile completes the pair (place 0) or the group c.
#[tactic(auto, unfolding(crate::specs::Tests::earns_wait))]
pub fn earns_wait(place: u8, c: u8, win: u8) -> bool
    ensures { result ≡ earns_wait place c win }
{
    place == 0
        || c < 34
            && ((win == c + 1) | ((c % 9 == 0) & (win == c + 2)) | ((c % 9 == 6) & (win == c)))
}

// The group that the winning tile completes; the first, where it completes the pair.
pub fn placed(g: [u8; 4], place: u8) -> u8
    requires { place ≤ 4 }
    ensures { result ≡ get_or g (place - 1) 0 }
{
    g[usize::from(place.saturating_sub(1))]
}

// Four runs.
fn all_runs(g: [u8; 4]) -> bool
    ensures { result ≡ all 4 (λ i. is_run (get_or g i 0)) }
{
    g.iter().all(|&c| c < 34)
}

// Yaku 4 but for the place: closed, four runs, the pair no value tile; `value` says whether it is one.
pub fn may_be_pinfu(closed: bool, g: [u8; 4], value: bool) -> bool
    ensures { result ≡ (closed && all 4 (λ i. is_run (get_or g i 0)) && not value) }
{
    closed & all_runs(g) & !value
}
