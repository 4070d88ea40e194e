// What a search for the readings of a tally tests and takes off it.
// A tally is handed over whole, and each removal gives a new one.
#![tactic(auto)]

ghost use Rattle.std.specs.Prelude.{◌≡◌, true, false, ℕ, ◌+◌, ◌*◌, ◌-◌, ◌<◌, ◌≤◌, length, get_or, MatchOption};
ghost use Rattle.tiles.specs.Below.{sum};
ghost use Rattle.tiles.specs.Groups.{is_group};
ghost use Rattle.reading.specs.Reading.{holds as holds_of, is_seven_pairs, is_orphans};
ghost use Rattle.std.specs.Iterator.{at_most};
ghost use Rattle.reading.specs.search.Readings.{is_empty, less, fits as fits_of, without as without_of, passes as passes_of, NoneFrom, PassedOver};
ghost use Rattle.reading.specs.search.Pairs.{OnlyPairs, weighed};

use reading::Reading;

// No tile is left.
pub fn is_empty(t: [u8; 34]) -> bool
    ensures { result ≡ is_empty t }
{
    t.iter().all(|&n| n == 0)
}

// The code is a group's: a run from its lowest kind, or a triplet.
pub fn is_group(code: u8) -> bool
    ensures { result ≡ is_group code }
{
    if code < 34 {
        tiles::is_run_start(code)
    } else {
        code < 68
    }
}

// The code is a group's, and the tally has its tiles.
pub fn fits(t: [u8; 34], code: u8) -> bool
    ensures { result ≡ fits_of t code }
{
    if !is_group(code) {
        return false;
    }
    if code < 34 {
        let c = code as usize;
        (1 <= t[c]) & (1 <= t[c + 1]) & (1 <= t[c + 2])
    } else {
        let k = (code - 34) as usize;
        3 <= t[k]
    }
}

// The tally without the tiles of a group.
pub fn without(t: [u8; 34], code: u8) -> [u8; 34]
    requires { fits_of t code ≡ true }
    ensures { result ≡ without_of t code }
{
    let mut u = t;
    if code < 34 {
        let c = code as usize;
        u[c] -= 1;
        u[c + 1] -= 1;
        u[c + 2] -= 1;
    } else {
        let k = (code - 34) as usize;
        u[k] -= 3;
    }
    u
}

// Groups of later codes can still take what the tally has.
pub fn passes(t: [u8; 34], code: u8) -> bool
    requires { code < 68 }
    ensures { result ≡ passes_of t code }
{
    if code < 34 {
        let c = code as usize;
        t[c] % 3 == 0
    } else {
        let k = (code - 34) as usize;
        t[k] == 0
    }
}

// The first kind from k on that has a tile.
pub fn next_kind(t: &[u8; 34], k: u8) -> Option<u8>
    ensures { MatchOption result (NoneFrom t.now k 34) (λ i. (k ≤ i) × (i < 34) × (get_or t.now i 0 ≡ 0 → ⊥) × NoneFrom t.now k i) }
{
    // stays a loop: with `find` Score takes 1% more
    for i in k..34 {
        if t[i as usize] != 0 {
            return Some(i);
        }
    }
    None
}

// The first code, from `code` on, whose lowest kind has a tile. The codes passed over do not fit.
pub fn next_code(t: &[u8; 34], code: u8) -> Option<u8>
    ensures { MatchOption result (PassedOver t.now code 68) (λ c. (code ≤ c) × (c < 68) × PassedOver t.now code c) }
{
    if code < 34 {
        if let Some(k) = next_kind(t, code) {
            return Some(k);
        }
    }
    let k = next_kind(t, code.saturating_sub(34))?;
    Some(34 + k)
}

// The tally without a pair.
pub fn without_pair(t: [u8; 34], k: usize) -> [u8; 34]
    requires { 2 ≤ get_or t k 0 }
    ensures { result ≡ less t k 2 }
{
    let mut u = t;
    u[k] -= 2;
    u
}

// The kinds that may be the pair, one after the other: first, first + 3, .. up to last; none where last is below first.
#[derive(Clone, Copy)]
pub struct Pairs {
    pub first: u8,
    pub last: u8,
}

impl Iterator for Pairs {
    type Item = u8;

    ghost can_next = { λ s. s.last < 34 };

    ghost next_gives = { λ s r t. MatchOption r (s.last < s.first) (λ k. (k ≡ s.first) × (k ≤ s.last) × (t.first ≡ k + 3) × (t.last ≡ s.last)) };

    ghost remaining = { λ s. at_most (34 - s.first) };

    fn next(&mut self) -> Option<u8> {
        if self.last < self.first {
            return None;
        }
        let k = self.first;
        self.first += 3;
        Some(k)
    }
}

// The tiles of a suit, and their sum with the weights 9 to 1.
#[derive(Clone, Copy)]
struct Suit {
    tiles: u32,
    weight: u32,
}

// The tiles of a suit and their weight, the sum of the sums up to each kind.
fn in_suit(suit: &[u8]) -> Suit
    requires { length suit.now ≡ 9 }
    ensures { (result.tiles ≡ sum 9 (λ i. get_or suit.now i 0)) × (result.weight ≡ weighed (λ i. get_or suit.now i 0)) }
{
    let mut tiles = 0;
    let mut weight = 0;
    for &n in suit {
        tiles += u32::from(n);
        weight += tiles;
    }
    Suit { tiles, weight }
}

// `first` is 34 where p is still none, and 35 where none are left: an iterator that may be empty needs no Option beside it.
// A suit or honour has `over` tiles over threes. With none over, p, the kinds so far, stay. With two, and p still none, q are the kinds. Else none are left.
fn joined(p: Pairs, over: u32, q: Pairs) -> Pairs
    ensures { (over ≡ 0 → result ≡ p) × (over ≡ 2 → p.first ≡ 34 → result ≡ q) × (p.last < 34 → q.last < 34 → result.last < 34) }
{
    if over == 0 {
        return p;
    }
    if (over == 2) & (p.first == 34) {
        return q;
    }
    Pairs { first: 35, last: 0 }
}

// The kinds that may be the pair beside groups: every third kind of one suit, or one honour. No other kind can be.
pub fn pairs_in(t: &[u8; 34]) -> Pairs
    requires { length t.now ≡ 34 }
    ensures { (result.last < 34) × OnlyPairs t.now result.first result.last }
{
    let mut p = Pairs { first: 34, last: 0 };
    for s in 0..3 {
        let n = in_suit(&t[9 * s..9 * s + 9]);
        let first = (9 * s) as u8 + (n.weight % 3) as u8;
        let q = Pairs {
            first,
            last: first + 6,
        };
        p = joined(p, n.tiles % 3, q);
    }
    for k in 27..34 {
        let q = Pairs {
            first: k as u8,
            last: k as u8,
        };
        p = joined(p, u32::from(t[k]) % 3, q);
    }
    p
}

// The tiles are seven pairs of different kinds.
pub fn is_seven_pairs(t: [u8; 34]) -> bool
    ensures { result ≡ is_seven_pairs t }
{
    let mut kinds = 0u8;
    for n in t {
        if n != 0 {
            let no_pair = n != 2;
            if no_pair {
                return false;
            }
            kinds += 1;
        }
    }
    kinds == 7
}

// The tiles are all 13 yaochu kinds, one of them twice.
pub fn is_orphans(t: [u8; 34]) -> bool
    ensures { result ≡ is_orphans t }
{
    let mut twice = 0u8;
    for (k, n) in t.iter().enumerate() {
        match (tiles::is_yaochu(k as u8), *n) {
            (true, 2) => twice += 1,
            (true, 1) | (false, 0) => {}
            _ => return false,
        }
    }
    twice == 1
}

// The pair or group at a reading's place has a tile of the kind.
pub fn holds(r: Reading, win: u8) -> bool
    requires { r.place ≤ 4 }
    ensures { result ≡ holds_of r.pair r.groups r.place win }
{
    if r.place == 0 {
        return win == r.pair;
    }
    let g = r.groups[(r.place - 1) as usize];
    if g < 34 {
        (g == win) | (g + 1 == win) | (g + 2 == win)
    } else {
        g - 34 == win
    }
}
