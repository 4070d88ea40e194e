// Fu, item by item, and their sum.
#![tactic(auto)]

ghost use Rattle.std.specs.Prelude.{◌≡◌, cond, ◌≤◌};
ghost use Rattle.yaku_basics.specs.search.Ways.{ways_at};
ghost use Rattle.yaku.specs.search.Common.{group_tests_of, place_tests_of};
ghost use Rattle.points_fu.specs.search.Items.{items_by, earned as earned_of};
ghost use Rattle.points_fu.specs.Fu.{fu, triplet_fu, group_fu, added as added_of, rounded as rounded_of, base_alone, items_of};

use units::Fu;
use yaku::{FullReading, GroupTests, PlaceTests, Won};

// What each thing earns, in fu, and what rounding adds: the groups are the reading's in its order, then the melds' in the record's.
#[repr(C)]
#[derive(Clone, Copy)]
pub struct Items {
    pub base: Fu,
    pub ron: Fu,
    pub pair: Fu,
    pub group: [Fu; 4],
    pub wait: Fu,
    pub tsumo: Fu,
    pub rounding: Fu,
}

// The fu of a triplet of simples, by its way.
#[tactic(auto, unfolding(crate::specs::Fu::triplet_fu))]
fn triplet_fu(way: u8) -> Fu
    ensures result_value { result.0 ≡ triplet_fu way }
    ensures result_bound { result.0 ≤ 16 }
{
    Fu(match way {
        0 => 4,
        1 => 2,
        2 => 8,
        _ => 16,
    })
}

// The fu of a group: twice that for yaochu, none for a run.
#[tactic(auto, unfolding(crate::specs::Fu::group_fu))]
fn group_fu(c: u8, way: u8) -> Fu
    ensures value { result ≡ fu (group_fu c way) }
    ensures result_bound { result.0 ≤ 32 }
{
    if !(34..68).contains(&c) {
        return Fu(0);
    }
    let n = triplet_fu(way);
    if tiles::is_yaochu(c - 34) {
        Fu(2 * n.0)
    } else {
        n
    }
}

// n fu where b holds, else none.
fn fu_if(b: bool, n: Fu) -> Fu
    ensures value { result ≡ fu (cond b n.0 0) }
    ensures result_le_n { result.0 ≤ n.0 }
{
    if b { n } else { Fu(0) }
}

// A base of n fu and nothing else.
pub fn base_alone(n: Fu) -> Items
    ensures { result ≡ base_alone n.0 }
{
    Items {
        base: n,
        ron: Fu(0),
        pair: Fu(0),
        group: [Fu(0); 4],
        wait: Fu(0),
        tsumo: Fu(0),
        rounding: Fu(0),
    }
}

// What each group earns: the reading's in its order, then the melds' in the record's.
pub fn group_items(g: [u8; 4], ways: [u8; 4]) -> [Fu; 4]
    ensures { result ≡ items_by g ways }
{
    std::array::from_fn(|i| group_fu(g[i], ways[i]))
}

// What each group earns. `all` is what they earn by their ways alone; by ron the group that the winning tile completes, at `place`, is open.
pub fn items_at(all: [Fu; 4], g: [u8; 4], ways: [u8; 4], ron: bool, place: u8) -> [Fu; 4]
    requires { (all ≡ items_by g ways) × (place ≤ 4) }
    ensures { result ≡ items_by g (ways_at ways ron place) }
{
    let mut u = all;
    if let Some(i) = yaku_basics::opened_by_ron(ron, place) {
        u[i] = group_fu(g[i], 1);
    }
    u
}

// The items of a regular reading, before rounding, where `group` is what its groups earn.
fn earned(w: Won, k: GroupTests, q: PlaceTests, p: FullReading, group: [Fu; 4]) -> Items
    requires k_value { k ≡ group_tests_of w p.shape p.pair p.groups }
    requires q_value { (q ≡ place_tests_of w p) × (group ≡ items_by p.groups p.ways) }
    ensures value { result ≡ earned_of w p 0 }
    ensures result_bound { added_of result ≤ 164 }
{
    let ron = fu_if(w.closed & w.ron, Fu(10));
    let pair = fu_if(k.value, Fu(2));
    let wait = fu_if(q.wait, Fu(2));
    let tsumo = fu_if(!w.ron & !q.pinfu, Fu(2));
    Items {
        base: Fu(20),
        ron,
        pair,
        group,
        wait,
        tsumo,
        rounding: Fu(0),
    }
}

// The fu of a reading: the sum of its items, written out: each has its name, and a sum over the four groups alone would be no plainer.
#[tactic(auto, unfolding(crate::specs::Fu::added))]
pub fn added(i: Items) -> Fu
    requires { added_of i ≤ 255 }
    ensures { result.0 ≡ added_of i }
{
    let g = i.group;
    Fu(
        i.base.0
            + i.ron.0
            + i.pair.0
            + g[0].0
            + g[1].0
            + g[2].0
            + g[3].0
            + i.wait.0
            + i.tsumo.0
            + i.rounding.0,
    )
}

// Up to tens, and an open 20 to 30.
#[tactic(auto, unfolding(crate::specs::Fu::rounded))]
fn rounded(closed: bool, f: Fu) -> Fu
    requires { f.0 ≤ 164 }
    ensures result_value { result.0 ≡ rounded_of closed f.0 }
    ensures f_le_result { (f.0 ≤ result.0) × (result.0 ≤ 170) }
{
    let n = (f.0 + 9) / 10 * 10;
    if !closed & (n == 20) { Fu(30) } else { Fu(n) }
}

// The items of a reading, where `group` is what its groups earn: a base of 25 alone for seven pairs, only zeros with a yakuman.
pub fn items_of(w: Won, k: GroupTests, q: PlaceTests, p: FullReading, group: [Fu; 4]) -> Items
    requires k_value { k ≡ group_tests_of w p.shape p.pair p.groups }
    requires q_value { (q ≡ place_tests_of w p) × (group ≡ items_by p.groups p.ways) }
    ensures value { result ≡ items_of w p }
    ensures result_bound { added_of result ≤ 170 }
{
    let shape = p.shape;
    if q.yakuman {
        return base_alone(Fu(0));
    }
    if shape == 1 {
        return base_alone(Fu(25));
    }
    let mut i = earned(w, k, q, p, group);
    let n = added(i);
    let r = rounded(w.closed, n);
    let more = Fu(r.0 - n.0);
    i.rounding = more;
    i
}
