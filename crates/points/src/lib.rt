// From han and fu to the basic points, the payments, the winner's gain and the four changes (01, Fu and points).
#![tactic(auto)]

ghost use Rattle.std.specs.Prelude.{◌≡◌, cond, ◌<◌, ◌≤◌, pos, ◌-ℤ◌};
ghost use Rattle.points.specs.Points.{plain as plain_of, limit as limit_of, ordinary as ordinary_of, basic as basic_of, hundreds as hundreds_of, times_a};
ghost use Rattle.points.specs.Points.{pays as pays_of, gain as gain_of, changes as changes_of};

use units::{Fu, Han, Points};

// The seats in turn order.
const SEATS: [u8; 4] = [0, 1, 2, 3];

// Who won, who deals, and who discarded the winning tile.
#[derive(Clone, Copy)]
pub struct Seats {
    pub winner: u8,
    pub dealer: u8,
    pub discarder: u8,
}

// Fu times 2 to the (h + 2).
#[tactic(auto, unfolding(crate::specs::Points::plain))]
fn plain(h: Han, f: Fu) -> Points
    requires { h.0 < 5 }
    ensures { result.0 ≡ plain_of h.0 f.0 }
{
    Points(u32::from(f.0) << (h.0 + 2))
}

// What A is where h is 5 or more, or A exceeds 2,000.
#[tactic(auto, unfolding(crate::specs::Points::limit))]
fn limit(h: Han) -> Points
    ensures result_value { result.0 ≡ limit_of h.0 }
    ensures result_bound { result.0 ≤ 6000 }
{
    Points(match h.0 {
        0..=5 => 2000,
        6..=7 => 3000,
        8..=10 => 4000,
        _ => 6000,
    })
}

// A without a yakuman.
#[tactic(auto, unfolding(crate::specs::Points::ordinary))]
fn ordinary(h: Han, f: Fu) -> Points
    ensures result_value { result.0 ≡ ordinary_of h.0 f.0 }
    ensures result_bound { result.0 ≤ 6000 }
{
    if 5 <= h.0 {
        return limit(h);
    }
    let a = plain(h, f);
    if 2000 < a.0 { limit(h) } else { a }
}

// The basic points A that payments are multiples of: by h and fu up to the limits, 8,000 with a yakuman.
#[tactic(auto, unfolding(crate::specs::Points::basic))]
pub fn basic(yakuman: bool, h: Han, f: Fu) -> Points
    ensures result_value { result.0 ≡ basic_of yakuman h.0 f.0 }
    ensures result_bound { result.0 ≤ 8000 }
{
    if yakuman {
        Points(8000)
    } else {
        ordinary(h, f)
    }
}

// A payment rounded up to hundreds.
#[tactic(auto, unfolding(crate::specs::Points::hundreds))]
fn hundreds(p: Points) -> Points
    requires { p.0 ≤ 48000 }
    ensures result_value { result.0 ≡ hundreds_of p.0 }
    ensures result_bound { result.0 ≤ 48000 }
{
    Points((p.0 + 99) / 100 * 100)
}

// How many times A a seat pays.
#[tactic(auto, unfolding(crate::specs::Points::times_a))]
fn times_a(s: Seats, ron: bool, seat: u8) -> u32
    ensures value { result ≡ times_a s ron seat }
    ensures upper_bound { result ≤ 6 }
{
    let by_dealer = s.winner == s.dealer;
    if s.winner == seat {
        0
    } else if ron {
        if s.discarder != seat {
            0
        } else if by_dealer {
            6
        } else {
            4
        }
    } else if by_dealer | (s.dealer == seat) {
        2
    } else {
        1
    }
}

// What a seat pays for a win of basic points a.
#[tactic(auto, unfolding(crate::specs::Points::pays))]
fn pays(s: Seats, ron: bool, a: Points, seat: u8) -> Points
    requires { a.0 ≤ 8000 }
    ensures result_value { result.0 ≡ pays_of s ron a.0 seat }
    ensures result_bound { result.0 ≤ 48000 }
{
    hundreds(Points(times_a(s, ron, seat) * a.0))
}

// What the winner gains for basic points a: all that the other seats pay.
#[tactic(auto, unfolding(crate::specs::Points::gain))]
pub fn gain(s: Seats, ron: bool, a: Points) -> Points
    requires { a.0 ≤ 8000 }
    ensures result_value { result.0 ≡ gain_of s ron a.0 }
    ensures result_bound { result.0 ≤ 192000 }
{
    let [p0, p1, p2, p3] = SEATS.map(|seat| pays(s, ron, a, seat).0);
    Points(p0 + p1 + p2 + p3)
}

// What a seat gets, if it wins, or pays.
fn change(wins: bool, got: Points, paid: Points) -> i32
    requires { (got.0 ≤ 192000) × (paid.0 ≤ 48000) }
    ensures { result ≡ cond wins (pos got.0) (pos 0 -ℤ pos paid.0) }
{
    if wins { got.0 as i32 } else { -(paid.0 as i32) }
}

// What seats 0 to 3 get or pay for basic points a; a loss is negative, so these are no `Points`.
#[tactic(auto, unfolding(crate::specs::Points::changes, crate::specs::Points::change))]
pub fn changes(s: Seats, ron: bool, a: Points) -> [i32; 4]
    requires { a.0 ≤ 8000 }
    ensures { result ≡ changes_of s ron a.0 }
{
    let got = gain(s, ron, a);
    SEATS.map(|seat| change(s.winner == seat, got, pays(s, ron, a, seat)))
}
