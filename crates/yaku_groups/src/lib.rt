// What the yaku ask of the four groups: twin runs, the same group in three suits, straight; and of each group, whatever the codes: outside,
// triplets, kans, winds.
#![tactic(auto)]

ghost use Rattle.std.specs.Prelude.{◌≡◌, ◌&&◌, cond, ◌+◌, ◌≤◌, ◌%◌, ltb, leb, get_or};
ghost use Rattle.tiles.specs.Below.{all, any};
ghost use Rattle.tiles.specs.Groups.{is_run, is_triplet};
ghost use Rattle.yaku_basics.specs.Tests.{has as has_of, twins as twins_of, in_three_suits, straight as straight_of, winds as winds_of};
ghost use Rattle.yaku_basics.specs.Tests.{has_yaochu as has_yaochu_of, outside as outside_of, triplets as triplets_of, is_concealed, concealed as concealed_of, kans as kans_of, four_winds};
ghost use Rattle.yaku_basics.specs.search.Ways.{ways_at};

use yaku_basics::{has, how_many, opened_by_ron};

// The groups that are triplets of winds: East, South, West, North.
const WINDS: [u8; 4] = [61, 62, 63, 64];

// ---- equal and following groups

// 1 where the run c comes after an odd number n of equal ones.
fn after_odd(c: u8, n: u8) -> u8
    ensures value { result ≡ cond (ltb c 27) (n % 2) 0 }
    ensures upper_bound { result ≤ 1 }
{
    if c < 27 { n % 2 } else { 0 }
}

// How many twin runs: the second and the fourth of equal runs make one. Written out: each group is compared with those before it, which two loops
// in one another say no plainer.
pub fn twins(g: [u8; 4]) -> u8
    ensures { result ≡ twins_of g }
{
    let [a, b, c, d] = g;
    after_odd(b, u8::from(a == b))
        + after_odd(c, u8::from(a == c) + u8::from(b == c))
        + after_odd(d, u8::from(a == d) + u8::from(b == d) + u8::from(c == d))
}

// The group c is of man, and the same of pin and of sou are among the four.
fn in_three_at(low: u8, g: [u8; 4], c: u8) -> bool
    requires { low ≤ 34 }
    ensures { result ≡ (leb low c && ltb c (low + 9) && has_of g (c + 9) && has_of g (c + 18)) }
{
    low <= c && c < low + 9 && has(g, c + 9) && has(g, c + 18)
}

// Yaku 13 and 16: the same group in three suits; `low` is the lowest code, 0 for runs, 34 for triplets.
pub fn in_three_suits(low: u8, g: [u8; 4]) -> bool
    requires { low ≤ 34 }
    ensures { result ≡ in_three_suits low g }
{
    g.iter().any(|&c| in_three_at(low, g, c))
}

// 123 456 789 of the suit whose lowest kind is c.
fn straight_from(g: [u8; 4], c: u8) -> bool
    requires { c ≤ 18 }
    ensures { result ≡ (has_of g c && has_of g (c + 3) && has_of g (c + 6)) }
{
    has(g, c) && has(g, c + 3) && has(g, c + 6)
}

// Yaku 14: 123 456 789 of a suit.
pub fn straight(g: [u8; 4]) -> bool
    ensures { result ≡ straight_of g }
{
    [0, 9, 18].iter().any(|&c| straight_from(g, c))
}

// ---- each of the groups

// The group has a yaochu.
#[tactic(auto, unfolding(yaku_basics::specs::Tests::has_yaochu))]
fn has_yaochu(c: u8) -> bool
    ensures { result ≡ has_yaochu_of c }
{
    if c < 34 {
        (c % 9 == 0) | (c % 9 == 6)
    } else {
        tiles::is_yaochu(c - 34)
    }
}

// Each of the four groups has a yaochu.
fn all_have_yaochu(g: [u8; 4]) -> bool
    ensures { result ≡ all 4 (λ i. has_yaochu_of (get_or g i 0)) }
{
    g.iter().all(|&c| has_yaochu(c))
}

// A run is among the four groups.
fn has_run(g: [u8; 4]) -> bool
    ensures { result ≡ any 4 (λ i. is_run (get_or g i 0)) }
{
    g.iter().any(|&c| c < 34)
}

// Yaku 15 and 22 but for the honour: yaochu in every group and the pair, a run among them.
#[tactic(auto, unfolding(yaku_basics::specs::Tests::outside))]
pub fn outside(g: [u8; 4], pair: u8) -> bool
    ensures { result ≡ outside_of g pair }
{
    tiles::is_yaochu(pair) && has_run(g) && all_have_yaochu(g)
}

// The group is a triplet.
fn is_triplet(c: u8) -> bool
    ensures { result ≡ is_triplet c }
{
    (34..68).contains(&c)
}

// Yaku 17: four triplets.
pub fn triplets(g: [u8; 4]) -> bool
    ensures { result ≡ triplets_of g }
{
    g.iter().all(|&c| is_triplet(c))
}

// The group is a concealed triplet.
fn is_concealed(c: u8, way: u8) -> bool
    ensures { result ≡ is_concealed c way }
{
    is_triplet(c) & ((way == 0) | (way == 3))
}

// Yaku 18 and 30: how many triplets are concealed.
pub fn concealed(g: [u8; 4], ways: [u8; 4]) -> u8
    ensures { result ≡ concealed_of g ways }
{
    let mut n = 0;
    for (c, way) in g.iter().zip(&ways) {
        n += u8::from(is_concealed(*c, *way));
    }
    n
}

// How many of `all` concealed triplets stay concealed. The winning tile completes the pair (place 0) or a group; by ron that group is open.
pub fn concealed_at(all: u8, g: [u8; 4], ways: [u8; 4], ron: bool, place: u8) -> u8
    requires { (all ≡ concealed_of g ways) × (place ≤ 4) }
    ensures { result ≡ concealed_of g (ways_at ways ron place) }
{
    match opened_by_ron(ron, place) {
        Some(i) => all - u8::from(is_concealed(g[i], ways[i])),
        None => all,
    }
}

// How many of `all` kans there are, where a group that the winning tile completes by ron is none.
pub fn kans_at(all: u8, ways: [u8; 4], ron: bool, place: u8) -> u8
    requires { (all ≡ kans_of ways) × (place ≤ 4) }
    ensures { result ≡ kans_of (ways_at ways ron place) }
{
    match opened_by_ron(ron, place) {
        Some(i) => all - u8::from(2 <= ways[i]),
        None => all,
    }
}

// Yaku 19 and 31: how many kans there are.
pub fn kans(ways: [u8; 4]) -> u8
    ensures { result ≡ kans_of ways }
{
    let mut n = 0;
    for way in ways {
        n += u8::from(2 <= way);
    }
    n
}

// How many wind triplets there are.
fn winds(g: [u8; 4]) -> u8
    ensures { result ≡ winds_of g }
{
    how_many(g, &WINDS) as u8
}

// Yaku 29: three wind triplets and a wind pair, or four wind triplets.
#[tactic(auto, unfolding(yaku_basics::specs::Tests::four_winds))]
pub fn four_winds(g: [u8; 4], pair: u8) -> bool
    ensures { result ≡ four_winds g pair }
{
    let n = winds(g);
    ((n == 3) & (27..=30).contains(&pair)) | (n == 4)
}
