// Write claim: a reading and the winner's gain as the bytes of a claim (02, S-13), which Judge reads. It takes all input.
#![tactic(auto)]

ghost use Rattle.std.specs.Prelude.{◌≡◌, [], ◌∷◌, ◌≤◌, ◌<◌};
ghost use Rattle.bits.specs.Bits.{pack, fill};
ghost use Rattle.hand_record.specs.Record.{written_in};
ghost use Rattle.claim.specs.search.Claimed.{widths};
ghost use Rattle.claim_writer.specs.Writes.{Writes};
ghost use Rattle.claim_writer.specs.Write.{written_of, buffer_of};
ghost use Rattle.claim_writer.specs.search.Bytes.{in_order, ordered, is_nameable, regular_values, other_values, packed};

use hand_record::Written;
use refusals::Refusal;
use units::Points;

// A claim's gain and reading, and the m of its hand. Shape, pair, groups and place are as `Reading` has them.
#[repr(C)]
#[derive(Clone, Copy)]
pub struct Claim {
    pub gain: Points,
    pub shape: u8,
    pub pair: u8,
    pub groups: [u8; 4],
    pub place: u8,
    pub m: u8,
}

// ---- whether bytes can name it

// The code at place i of the groups is one of a group and not under `low`, where i is one of the first n places; past them it is 68.
fn in_order(n: u8, i: u8, low: u8, code: u8) -> bool
    ensures { result ≡ in_order n i low code }
{
    if i < n {
        return (low <= code) & reading_steps::is_group(code);
    }
    code == 68
}

// The groups are n codes that do not descend, then 68.
fn are_ordered(g: [u8; 4], n: u8) -> bool
    ensures { result ≡ ordered n 0 g }
{
    let mut low = 0;
    for (i, &code) in g.iter().enumerate() {
        if !in_order(n, i as u8, low, code) {
            return false;
        }
        low = code;
    }
    true
}

// Some bytes name the reading and the gain for m melds.
fn is_nameable(c: Claim) -> bool
    ensures { result ≡ is_nameable c }
{
    let g = c.groups;
    if (4 < c.m) | (131071 < c.gain.0) {
        return false;
    }
    if c.shape == 0 {
        let n = 4 - c.m;
        return (c.pair <= 33) & (c.place <= n) & are_ordered(g, n);
    }
    (c.shape <= 2) & (c.pair == 34) & (c.place == 0) & are_ordered(g, 0)
}

// ---- its bytes

// The bits of a regular claim, with zeros after them.
fn pack_regular(c: Claim) -> [u8; 56]
    requires { (c.m ≤ 4) × (c.gain.0 < 131072) }
    ensures { result ≡ fill 56 (pack (widths c.m) (regular_values c)) }
{
    let gain = c.gain.0;
    let groups = c.groups;
    let size = (4 - c.m) as usize;
    let hw = [2u8, 6];
    let hv = [0, c.pair];
    let cw = [7u8; 4];
    let tw = [3u8, 1, 8, 8];
    let tv = [
        c.place,
        (gain / 65536) as u8,
        (gain / 256 % 256) as u8,
        (gain % 256) as u8,
    ];
    let mut b = [0u8; 56];
    bits::pack_into(&hw, &hv, &mut b, 0);
    bits::pack_into(&cw[..size], &groups[..size], &mut b, 8);
    bits::pack_into(&tw, &tv, &mut b, 8 + 7 * size);
    b
}

// The bits of a claim of another shape, with zeros after them.
fn pack_other(c: Claim) -> [u8; 56]
    requires { c.gain.0 < 131072 }
    ensures { result ≡ fill 56 (pack (2 ∷ 17 ∷ []) (other_values c)) }
{
    let gain = c.gain.0;
    let ws = [2u8, 1, 8, 8];
    let vs = [
        c.shape,
        (gain / 65536) as u8,
        (gain / 256 % 256) as u8,
        (gain % 256) as u8,
    ];
    let mut b = [0u8; 56];
    bits::pack_into(&ws, &vs, &mut b, 0);
    b
}

// The bits of a claim, with zeros after them.
fn pack_claim(c: Claim) -> [u8; 56]
    requires { (c.m ≤ 4) × (c.gain.0 < 131072) }
    ensures { result ≡ packed c }
{
    if c.shape == 0 {
        return pack_regular(c);
    }
    pack_other(c)
}

// ---- the call

// Stores the claim at the start of the buffer and gives its length; refused where no bytes name it or the buffer is short, and then no byte is stored.
fn try_write(c: Claim, buf: &mut [u8]) -> Result<usize, Refusal>
    ensures value { written_in result ≡ written_of c buf.old }
    ensures buf_after { buf.new ≡ buffer_of c buf.old }
{
    if !is_nameable(c) {
        return Err(Refusal::Claim);
    }
    let n = claim::length(c.shape, c.m);
    if buf.len() < n {
        return Err(Refusal::Buffer);
    }
    let b = pack_claim(c);
    let ew = [8u8; 7];
    bits::unpack_into(&ew[..n], &b, 0, buf);
    Ok(n)
}

// Write claim: stores the claim at the start of the buffer and gives its length; 22 or 13 and no byte stored where it is refused.
pub fn write(c: Claim, buf: &mut [u8]) -> Written
    ensures writes { Writes c buf.old result buf.new }
    ensures value { result ≡ written_of c buf.old }
    ensures buf_after { buf.new ≡ buffer_of c buf.old }
{
    Written::from(try_write(c, buf))
}
