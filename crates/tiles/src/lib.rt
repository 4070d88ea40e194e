// The 34 kinds of tile: tests of a kind, the dora, and tallies of how many there are of each. A test takes any number.
#![tactic(auto)]

ghost use Rattle.std.specs.Prelude.{◌≡◌, ◌<◌, ◌≤◌, ◌+◌, get_or};
ghost use Rattle.tiles.specs.Tally.{more as more_of};
ghost use Rattle.tiles.specs.Kinds.{is_yaochu, is_run_start, dora_of};

// A terminal or an honour.
pub fn is_yaochu(k: u8) -> bool
    ensures { result ≡ is_yaochu k }
{
    ((k < 27) & ((k % 9 == 0) | (k % 9 == 8))) | ((27 <= k) & (k <= 33))
}

// The lowest tile of a run within its suit.
pub fn is_run_start(k: u8) -> bool
    ensures { result ≡ is_run_start k }
{
    (k < 27) & (k % 9 <= 6)
}

// The dora of the indicator k: the kind after it. 0 where k is no kind.
pub fn dora(k: u8) -> u8
    ensures value { result ≡ dora_of k }
    ensures upper_bound { result < 34 }
{
    if k < 27 {
        9 * (k / 9) + (k % 9 + 1) % 9
    } else if k < 31 {
        27 + (k - 27 + 1) % 4
    } else if k < 34 {
        31 + (k - 31 + 1) % 3
    } else {
        0
    }
}

// A tally with n more tiles of kind k; the same tally where k is no kind.
pub fn add(t: [u8; 34], k: u8, n: u8) -> [u8; 34]
    requires { get_or t k 0 + n ≤ 255 }
    ensures { result ≡ more_of t k n }
{
    let mut u = t;
    let i = k as usize;
    if i < 34 {
        u[i] += n;
    }
    u
}
