// Fields of given widths, packed as bits, most significant first. A bit is a byte that is 0 or 1.
// These are inner calls: each asks for room, which its callers show.
#![tactic(auto)]

ghost use Rattle.std.specs.Prelude.{◌≡◌, ◌+◌, ◌-◌, ◌*◌, ◌/◌, ◌%◌, ◌^◌, ◌<◌, ◌≤◌, length, get_or, take, drop, replicate};
ghost use Rattle.std.proofs.lemmas.List.Edits.{sets};
ghost use Rattle.bits.specs.Bits.{joined, digits, val, pack, unpack, width_of, EachBelow, bits_of};

// The number that the n bits from `at` on are, up to 8 of them.
fn gather(b: &[u8], at: usize, n: usize) -> u8
    requires { (n ≤ 8) × (at + n ≤ length b.now) × EachBelow 2 b.now }
    ensures { result ≡ val 0 (take n (drop at b.now)) }
{
    let mut r: u8 = 0;
    for &bit in &b[at..at + n] {
        r = r * 2 + bit;
    }
    r
}

// The n low bits of v, up to 8 of them, stored from `at` on.
pub fn put(b: &mut [u8], at: usize, n: usize, v: u8)
    requires { (n ≤ 8) × (at + n ≤ length b.old) }
    ensures { b.new ≡ sets b.old at (digits n v) }
{
    for i in 0..n {
        b[at + i] = (v >> (n - 1 - i)) % 2;
    }
}

// The fields vs, each at its width of up to 8, stored as bits from `at` on.
pub fn pack_into(ws: &[u8], vs: &[u8], b: &mut [u8], at: usize)
    requires { (length ws.now ≡ length vs.now) × EachBelow 9 ws.now × (at + width_of ws.now ≤ length b.old) }
    ensures { b.new ≡ sets b.old at (pack ws.now vs.now) }
{
    let mut o = at;
    for (i, &w) in ws.iter().enumerate() {
        put(b, o, w as usize, vs[i]);
        o += w as usize;
    }
}

// The fields, of widths up to 8, that the bits from `at` on are, stored from the front of out.
pub fn unpack_into(ws: &[u8], b: &[u8], at: usize, out: &mut [u8])
    requires { (length ws.now ≤ length out.old) × EachBelow 9 ws.now × (at + width_of ws.now ≤ length b.now) × EachBelow 2 b.now }
    ensures { out.new ≡ sets out.old 0 (unpack ws.now (drop at b.now)) }
{
    let mut o = at;
    for (i, &w) in ws.iter().enumerate() {
        out[i] = gather(b, o, w as usize);
        o += w as usize;
    }
}

// A byte, 0 past the end.
fn byte(s: &[u8], i: usize) -> u32
    ensures { (result ≡ get_or s.now i 0) × (result < 256) }
{
    if i < s.len() {
        return s[i] as u32;
    }
    0
}

// The w bits of a number that have q bits after them.
fn shifted(x: u32, q: usize, w: usize) -> u32
    requires { (q < 32) × (w ≤ 17) }
    ensures { (result ≡ x / 2 ^ q % 2 ^ w) × (result < 2 ^ w) }
{
    let one: u32 = 1;
    (x >> q) % (one << w)
}

// The number that the w bits of bytes from bit p on are, up to 8 of them: they lie in two bytes.
pub fn field(s: &[u8], p: usize, w: usize) -> u8
    requires { (w ≤ 8) × (p + w ≤ 8 * length s.now) }
    ensures { result ≡ val 0 (take w (drop p (bits_of s.now))) }
{
    let i = p / 8;
    let x = byte(s, i) * 256 + byte(s, i + 1);
    shifted(x, 16 - w - p % 8, w) as u8
}

// The same of up to 17 bits: they lie in three bytes.
pub fn long_field(s: &[u8], p: usize, w: usize) -> u32
    requires { (w ≤ 17) × (p + w ≤ 8 * length s.now) }
    ensures { result ≡ val 0 (take w (drop p (bits_of s.now))) }
{
    let i = p / 8;
    let x = (byte(s, i) * 256 + byte(s, i + 1)) * 256 + byte(s, i + 2);
    shifted(x, 24 - w - p % 8, w)
}

// The number that the last w bits of bytes are, up to 8 of them.
pub fn last(s: &[u8], w: usize) -> u8
    requires { (w ≤ 8) × (0 < length s.now) }
    ensures { result ≡ val 0 (take w (drop (8 * length s.now - w) (bits_of s.now))) }
{
    let x = s[s.len() - 1] as u32;
    shifted(x, 0, w) as u8
}

// Four bytes from i on, as one number.
fn word(s: &[u8], i: usize) -> u32
    requires { i + 4 ≤ length s.now }
    ensures { result ≡ joined 0 4 (λ d. get_or s.now (i + d) 0) }
{
    ((s[i] as u32 * 256 + s[i + 1] as u32) * 256 + s[i + 2] as u32) * 256 + s[i + 3] as u32
}

// Three fields of w bits, 1 to 8, from bit p on: they lie in four bytes.
fn three(s: &[u8], p: usize, w: usize) -> [u8; 3]
    requires { (0 < w) × (w ≤ 8) × (p + 3 * w ≤ 8 * length s.now) × (p / 8 + 4 ≤ length s.now) }
    ensures { result ≡ unpack (replicate 3 w) (drop p (bits_of s.now)) }
{
    let x = word(s, p / 8) >> (32 - 3 * w - p % 8);
    let a = shifted(x, 2 * w, w) as u8;
    let b = shifted(x, w, w) as u8;
    let c = shifted(x, 0, w) as u8;
    [a, b, c]
}

// The n fields of w bits, 1 to 8, that the bits of at most 13 bytes from bit `at` on are, stored from the front of out: three by three while
// four bytes are there, then one by one.
pub fn run_into(s: &[u8], at: usize, w: usize, n: usize, out: &mut [u8])
    requires { (0 < w) × (w ≤ 8) × (n ≤ length out.old) × (length s.now ≤ 13) × (at + w * n ≤ 8 * length s.now) }
    ensures { out.new ≡ sets out.old 0 (unpack (replicate n w) (drop at (bits_of s.now))) }
{
    let mut i = 0;
    let mut o = at;
    // stays a while: how far it goes depends on the bytes that are left
    while 2 < n - i && o / 8 + 4 <= s.len() {
        let t = three(s, o, w);
        out[i] = t[0];
        out[i + 1] = t[1];
        out[i + 2] = t[2];
        o += 3 * w;
        i += 3;
    }
    for j in i..n {
        out[j] = field(s, o, w);
        o += w;
    }
}
