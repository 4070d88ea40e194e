// A complete hand is made kind by kind: a state says what is begun and what is left to do, and each choice at a kind leads to another.
#![tactic(auto)]

ghost use Rattle.std.specs.Prelude.{◌≡◌, ℕ, ◌+◌, ◌-◌, ◌<◌, ◌≤◌, ◌%◌};
ghost use Rattle.ready_choices.specs.search.Moves.{choices as choices_of, tetra as tetra_of, triangle as triangle_of};
ghost use Rattle.ready_choices.specs.search.Moves.{a_of, b_of, g_of, state as state_of, live as live_of};

// The first states of seven pairs and of thirteen orphans, in which nothing is left to do. Those of a regular hand stand before them.
pub const NO_PAIR_LEFT: u8 = 70;

pub const NO_ORPHAN_LEFT: u8 = 78;

// The states of a regular hand: a + 5b + 25g of the runs begun at the kind before (a) and at the one before that (b) and the groups left to begin (g).
const BEGUN: [u8; 35] = [
    0, 25, 5, 1, 50, 30, 26, 10, 6, 2, 75, 55, 51, 35, 31, 27, 15, 11, 7, 3, 100, 80, 76, 60, 56,
    52, 40, 36, 32, 28, 20, 16, 12, 8, 4,
];

// The choices at a kind of a regular hand, in the order of the groups that they begin: runs begun, triplets, pairs.
const CHOICES: [[u8; 3]; 10] = [
    [0, 0, 0],
    [0, 0, 1],
    [0, 1, 0],
    [1, 0, 0],
    [1, 0, 1],
    [2, 0, 0],
    [2, 0, 1],
    [1, 1, 0],
    [3, 0, 0],
    [4, 0, 0],
];

// How many triples of numbers have a sum under n.
// stays beside `triangle`: another formula
fn tetra(n: u8) -> u8
    requires { n ≤ 4 }
    ensures { (result ≡ tetra_of n) × (result ≤ 20) }
{
    n * (n + 1) * (n + 2) / 6
}

// How many pairs of numbers have a sum under n.
// stays beside `tetra`: another formula
fn triangle(n: u8) -> u8
    requires { n ≤ 4 }
    ensures { (result ≡ triangle_of n) × (result ≤ 10) }
{
    n * (n + 1) / 2
}

// How many triples of numbers have a sum under n - y. Every choice in a state takes it from the same two numbers, those of n.
fn smaller(n: u8, y: u8) -> u8
    requires { (n ≤ 4) × (y ≤ n) × (y ≤ 1) }
    ensures { (result ≡ tetra_of (n - y)) × (result ≤ 20) }
{
    if y == 0 {
        return tetra(n);
    }
    tetra(n) - triangle(n)
}

// The state of the runs a and b and the pairs p, where the runs and the groups left come to n less y.
pub fn state(a: u8, b: u8, n: u8, y: u8, p: u8) -> u8
    requires { (a + b + y ≤ n) × (n ≤ 4) × (y ≤ 1) × (p ≤ 1) }
    ensures { (g : ℕ) → a + b + g + y ≡ n → result ≡ state_of a b g p }
{
    2 * (smaller(n, y) + triangle(a + b) + a) + p
}

// How many choices begin g groups at most.
// stays five numbers: no formula gives them
#[tactic(auto, unfolding(crate::specs::search::Moves::choices))]
fn choices(g: u8) -> u8
    ensures { (result ≡ choices_of g) × (result ≤ 10) }
{
    match g {
        0 => 2,
        1 => 5,
        2 => 8,
        3 => 9,
        _ => 10,
    }
}

// What a choice does: the state after it, and the tiles that it takes.
#[derive(Clone, Copy)]
pub struct Move {
    pub to: u8,
    pub tiles: u8,
}

impl Move {
    ghost use Rattle.ready_choices.specs.search.Made.{value_of};

    // What a move is worth; `later` is the value of the state after it.
    pub fn value(self, later: u8, have: u8, room: u8) -> u8
        requires { (later ≤ 200) × (have ≤ 4) }
        ensures { result ≡ value_of self later have room }
    {
        let possible = (self.tiles <= room) & (later != 0);
        if possible {
            later + have.min(self.tiles)
        } else {
            0
        }
    }
}

// A state, and what that of a regular hand has: runs begun at the kind before and at the one before that, groups and pairs left to begin.
#[derive(Clone, Copy)]
pub struct Begun {
    pub state: u8,
    pub last: u8,
    pub earlier: u8,
    pub groups: u8,
    pub pairs: u8,
    ghost sum: { last + earlier + groups ≤ 4 },
    ghost one: { pairs ≤ 1 },
    ghost runs_a: { state < 70 → last ≡ a_of state },
    ghost runs_b: { state < 70 → earlier ≡ b_of state },
    ghost left: { state < 70 → groups ≡ g_of state },
    ghost pair: { state < 70 → pairs ≡ state % 2 },
}

impl Begun {
    ghost use Rattle.ready_choices.specs.search.Made.{tries_of, takes, Makes};

    // What a state has: one of a regular hand, else nothing.
    pub fn in_state(state: u8) -> Begun
        ensures { result.state ≡ state }
    {
        if state < NO_PAIR_LEFT {
            let v = BEGUN[usize::from(state / 2)];
            return Begun {
                state,
                last: v % 5,
                earlier: v / 5 % 5,
                groups: v / 25,
                pairs: state % 2,
            };
        }
        Begun {
            state,
            last: 0,
            earlier: 0,
            groups: 0,
            pairs: 0,
        }
    }

    // A hand can be in the state at the kind k.
    pub fn is_live(self, k: u8) -> bool
        ensures { result ≡ live_of k self.state }
    {
        if self.state < NO_PAIR_LEFT {
            return ((self.last == 0) | ((k < 27) & (1 <= k % 9) & (k % 9 <= 7)))
                & ((self.earlier == 0) | ((k < 27) & (2 <= k % 9)));
        }
        true
    }

    // The choice of x runs, y triplets and z pairs in a state that has so many left to begin.
    pub fn taking(self, x: u8, y: u8, z: u8) -> Move
        requires { (x + y ≤ self.groups) × (y ≤ 1) × (z ≤ self.pairs) }
        ensures { result ≡ takes self x y z }
    {
        Move {
            to: state(x, self.last, self.last + self.groups, y, self.pairs - z),
            tiles: self.last + self.earlier + x + 3 * y + 2 * z,
        }
    }

    // The choice e at the kind k of a regular hand, if it can be made.
    fn regular(self, k: u8, e: u8) -> Option<Move>
        requires { (self.state < 70) × (e < 10) }
        ensures { Makes k self.state e result }
    {
        let [x, y, z] = CHOICES[usize::from(e)];
        let possible = (x + y <= self.groups)
            & (z <= self.pairs)
            & ((x == 0) | tiles::is_run_start(k));
        if possible {
            Some(self.taking(x, y, z))
        } else {
            None
        }
    }

    // The same of seven pairs: a pair of the kind, or none.
    fn pairs(self, k: u8, e: u8) -> Option<Move>
        requires { (70 ≤ self.state) × (self.state < 78) }
        ensures { Makes k self.state e result }
    {
        let left = self.state - NO_PAIR_LEFT;
        let possible = (e <= 1) & (e <= left);
        if possible {
            Some(Move {
                to: self.state - e,
                tiles: 2 * e,
            })
        } else {
            None
        }
    }

    // The same of thirteen orphans: a tile of a terminal's or an honour's kind, or two.
    fn orphans(self, k: u8, e: u8) -> Option<Move>
        requires { (78 ≤ self.state) × (self.state < 80) }
        ensures { Makes k self.state e result }
    {
        let left = self.state - NO_ORPHAN_LEFT;
        let yaochu = tiles::is_yaochu(k);
        let possible = (e <= 1) & (e <= left) & ((e == 0) | yaochu);
        if possible {
            Some(Move {
                to: self.state - e,
                tiles: if yaochu { 1 + e } else { 0 },
            })
        } else {
            None
        }
    }

    // The choice e at the kind k, if it can be made.
    pub fn made(self, k: u8, e: u8) -> Option<Move>
        requires { (self.state < 80) × (e < 10) }
        ensures { Makes k self.state e result }
    {
        if self.state < NO_PAIR_LEFT {
            self.regular(k, e)
        } else if self.state < NO_ORPHAN_LEFT {
            self.pairs(k, e)
        } else {
            self.orphans(k, e)
        }
    }

    // How many choices are worth a try at the kind k.
    pub fn tries(self, k: u8) -> u8
        ensures { (result ≡ tries_of k self.state self.groups) × (result ≤ 10) }
    {
        if NO_PAIR_LEFT <= self.state {
            return 2;
        }
        let n = choices(self.groups);
        if tiles::is_run_start(k) { n } else { n.min(3) }
    }
}
