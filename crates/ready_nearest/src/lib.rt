// How far a tally is from ready: the complete hand that keeps most of its tiles, with one tile less. It is found kind by kind: a table of 35 rows
// of 80 states has the most that can be kept from each state on, one row for each kind and one after the last.
#![tactic(auto)]

ghost use Rattle.std.specs.Prelude.{◌≡◌, true, List, [], ℕ, ◌+◌, ◌-◌, ◌<◌, ◌≤◌, max, length, get_or, IfSome, IfNone};
ghost use Rattle.tiles.specs.Below.{sum_below};
ghost use Rattle.ready_choices.specs.search.Tallies.{HandTally, MeldsTally, NearestTally};
ghost use Rattle.tiles.specs.Kinds.{is_run_start};
ghost use Rattle.ready_choices.specs.search.Moves.{live, most, worth, best};
ghost use Rattle.ready_choices.specs.search.Made.{value_of};
ghost use Rattle.ready_nearest.specs.search.Found.{Chose, Pairs, after, Small, Fours, RowOf, Filled, Walked, Topmost, Shorter};

use ready_choices::{Begun, Move, NO_ORPHAN_LEFT, NO_PAIR_LEFT};

// The states in which seven pairs and thirteen orphans begin.
const SEVEN_PAIRS: u8 = 77;

const THIRTEEN_ORPHANS: u8 = 79;

// The best choice: one more than the tiles kept from its kind on (0 for none), the state after it, and the tiles that it takes.
#[derive(Clone, Copy)]
pub struct Choice {
    pub value: u8,
    pub to: u8,
    pub tiles: u8,
}

// The fewest swaps, and a ready hand that many swaps away.
#[derive(Clone, Copy)]
pub struct Near {
    pub swaps: u8,
    pub hand: [u8; 34],
}

// A kind at which a choice is made: how many tiles of it are held, for how many there is room, and the row of the kind after it.
#[derive(Clone, Copy)]
struct Kind<'a> {
    kind: u8,
    have: u8,
    room: u8,
    later: &'a [u8; 80],
    ghost low: { kind < 34 },
    ghost four: { have ≤ 4 },
    ghost small: { Small later.now },
}

impl Kind<'_> {
    // The larger of v and what the move m is worth.
    fn better(&self, v: u8, m: Move) -> u8
        requires { m.to < 80 }
        ensures { result ≡ max v (value_of m (get_or self.now.later.now m.to 0) self.now.have self.now.room) }
    {
        if self.room < m.tiles {
            return v;
        }
        v.max(m.value(self.later[m.to as usize], self.have, self.room))
    }

    // The largest of v and what two choices are worth: x runs and no triplet, without a pair and with one.
    fn with_pair(&self, v: u8, q: Begun, x: u8) -> u8
        requires { (q.state < 70) × (live self.now.kind q.state ≡ true) × (x ≤ q.groups) × (0 < x → is_run_start self.now.kind ≡ true) }
        ensures { (e : ℕ) → Pairs e x → v ≡ most e (worth self.now.have self.now.room (after self.now.later.now) self.now.kind q.state) →
            result ≡ most (e + 1 + 1) (worth self.now.have self.now.room (after self.now.later.now) self.now.kind q.state) }
    {
        let w = self.better(v, q.taking(x, 0, 0));
        let none = q.pairs == 0;
        if none {
            return w;
        }
        self.better(w, q.taking(x, 0, 1))
    }

    // The most that can be kept in a state of a regular hand: the choices in the order of the groups that they begin.
    // stays written out: tried as `choose`, a loop over the choices, Ready took 654,000 instructions, over its bar of 400,000; so it takes 252,000
    fn regular(&self, q: Begun) -> u8
        requires { (q.state < 70) × (live self.now.kind q.state ≡ true) }
        ensures { result ≡ most 10 (worth self.now.have self.now.room (after self.now.later.now) self.now.kind q.state) }
    {
        let none = self.with_pair(0, q, 0);
        if q.groups == 0 {
            return none;
        }
        let triplet = self.better(none, q.taking(0, 1, 0));
        if !tiles::is_run_start(self.kind) {
            return triplet;
        }
        let one = self.with_pair(triplet, q, 1);
        if q.groups == 1 {
            return one;
        }
        let two = self.with_pair(one, q, 2);
        let both = self.better(two, q.taking(1, 1, 0));
        let two = q.groups == 2;
        if two {
            return both;
        }
        let three = self.better(both, q.taking(3, 0, 0));
        if q.groups == 3 {
            return three;
        }
        self.better(three, q.taking(4, 0, 0))
    }

    // The same in a state of seven pairs or thirteen orphans: two choices.
    fn special(&self, q: Begun) -> u8
        requires { (70 ≤ q.state) × (q.state < 80) × (live self.now.kind q.state ≡ true) }
        ensures { result ≡ most 10 (worth self.now.have self.now.room (after self.now.later.now) self.now.kind q.state) }
    {
        let mut v = 0;
        // stays a range: e is the choice's number
        for e in 0..2 {
            if let Some(m) = q.made(self.kind, e) {
                v = self.better(v, m);
            }
        }
        v
    }

    // One more than the most tiles that can be kept from the kind on in the state s, 0 for none.
    // stays a number: it is a place of the table, and `better` takes the larger of two
    fn most_kept(&self, s: u8) -> u8
        requires { s < 80 }
        ensures { result ≡ most 10 (worth self.now.have self.now.room (after self.now.later.now) self.now.kind s) }
    {
        let q = Begun::in_state(s);
        if !q.is_live(self.kind) {
            return 0;
        }
        if s < NO_PAIR_LEFT {
            self.regular(q)
        } else {
            self.special(q)
        }
    }

    // The row of the kind.
    fn row(&self) -> [u8; 80]
        ensures { (s : ℕ) → s < 80 →
            get_or result s 0 ≡ most 10 (worth self.now.have self.now.room (after self.now.later.now) self.now.kind s) }
    {
        let mut row = [0; 80];
        for (s, v) in row.iter_mut().enumerate() {
            *v = self.most_kept(s as u8);
        }
        row
    }

    // The best choice in the state s.
    fn choose(&self, s: u8) -> Choice
        requires { s < 80 }
        ensures { Chose self.now.have self.now.room (after self.now.later.now) self.now.kind s 10 result }
    {
        let mut b = Choice {
            value: 0,
            to: 0,
            tiles: 0,
        };
        let q = Begun::in_state(s);
        if !q.is_live(self.kind) {
            return b;
        }
        let n = q.tries(self.kind);
        // stays a range: e is the choice's number
        for e in 0..n {
            if let Some(m) = q.made(self.kind, e) {
                let value = m.value(self.later[m.to as usize], self.have, self.room);
                if b.value < value {
                    b = Choice {
                        value,
                        to: m.to,
                        tiles: m.tiles,
                    };
                }
            }
        }
        b
    }
}

// The kind k of the tallies t and d, where the table has the row after it.
fn at_kind<'a>(k: usize, t: &[u8; 34], d: &[u8; 34], table: &'a [[u8; 80]; 35]) -> Kind<'a>
    requires { (k < 34) × Fours t.now × Fours d.now × (length d.now ≡ 34) × RowOf t.now d.now (k + 1) (get_or table.now (k + 1) []) }
    ensures { (result.kind ≡ k) × (result.have ≡ get_or t.now k 0) × (result.room ≡ 4 - get_or d.now k 0) × (result.later.now ≡ get_or table.now (k + 1) []) }
{
    Kind {
        kind: k as u8,
        have: t[k],
        room: 4 - d[k],
        later: &table[k + 1],
    }
}

// The complete hand of the best choices.
fn walk(start: u8, t: &[u8; 34], d: &[u8; 34], table: &[[u8; 80]; 35]) -> [u8; 34]
    requires t_len { (length t.now ≡ 34) × (length d.now ≡ 34) × Fours t.now × Fours d.now × Filled t.now d.now table.now }
    requires start_bound { (start < 80) × (1 ≤ best t.now d.now 34 0 start) }
    ensures { Walked t.now d.now start result }
{
    let mut w = [0; 34];
    let mut s = start;
    for (k, tiles) in w.iter_mut().enumerate() {
        let c = at_kind(k, t, d, table).choose(s);
        *tiles = c.tiles;
        s = c.to;
    }
    w
}

// Where the best complete hand begins, by the first row of the table.
// stays with its bound of m: m is a byte of what C gives
fn start(t: &[u8; 34], d: &[u8; 34], m: u8, first: &[u8; 80]) -> u8
    requires { (m ≤ 4) × RowOf t.now d.now 0 first.now }
    ensures { Topmost t.now d.now m result }
{
    let mut s = ready_choices::state(0, 0, 4 - m, 0, 1);
    if m != 0 {
        return s;
    }
    if first[s as usize] < first[SEVEN_PAIRS as usize] {
        s = SEVEN_PAIRS;
    }
    if first[s as usize] < first[THIRTEEN_ORPHANS as usize] {
        s = THIRTEEN_ORPHANS;
    }
    s
}

// The first kind of which t has fewer than w.
fn lacking(t: &[u8; 34], w: &[u8; 34]) -> Option<usize>
    ensures found { IfSome result (λ k. (k < 34) × (get_or t.now k 0 < get_or w.now k 0)) }
    ensures none { IfNone result ((k : ℕ) → k < 34 → get_or w.now k 0 ≤ get_or t.now k 0) }
{
    t.iter().zip(w).position(|(have, need)| have < need)
}

// The hand without a tile that t lacks.
fn short(t: &[u8; 34], w: [u8; 34]) -> [u8; 34]
    requires { (length t.now ≡ 34) × (sum_below 34 (λ k. get_or t.now k 0) < sum_below 34 (λ k. get_or w k 0)) }
    ensures { Shorter t.now w result }
{
    let mut u = w;
    if let Some(k) = lacking(t, &w) {
        u[k] -= 1;
    }
    u
}

// The nearest ready tally by a table that is filled.
fn found(t: &[u8; 34], d: &[u8; 34], m: u8, table: &[[u8; 80]; 35]) -> Near
    requires { HandTally t.now d.now m × MeldsTally d.now m × Filled t.now d.now table.now × (length d.now ≡ 34) }
    ensures { NearestTally t.now d.now m result.swaps result.hand }
{
    let first = &table[0];
    let s = start(t, d, m, first);
    let w = walk(s, t, d, table);
    let v = first[s as usize];
    Near {
        swaps: 14 - 3 * m - v,
        hand: short(t, w),
    }
}

// After the last kind nothing is left to do in three states.
fn last_row() -> [u8; 80]
    ensures { (t d : List ℕ) → RowOf t d 34 result }
{
    let mut row = [0; 80];
    row[0] = 1;
    row[NO_PAIR_LEFT as usize] = 1;
    row[NO_ORPHAN_LEFT as usize] = 1;
    row
}

// The fewest swaps that make the concealed tiles t ready beside m melds of the tiles d, and a ready hand that many swaps away.
pub fn nearest(t: [u8; 34], d: [u8; 34], m: u8) -> Near
    requires { HandTally t d m × MeldsTally d m }
    ensures { NearestTally t d m result.swaps result.hand }
{
    let mut table = [[0; 80]; 35];
    table[34] = last_row();
    // stays a range: each row is made of the one after it, from the last kind to the first
    for k in (0..34).rev() {
        let row = at_kind(k, &t, &d, &table).row();
        table[k] = row;
    }
    found(&t, &d, m, &table)
}
