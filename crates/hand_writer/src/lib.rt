// Write: a hand as its record (01, Tiles and the hand record). It takes all input.
#![tactic(auto)]

ghost use Rattle.std.specs.Prelude.{◌≡◌, ◌+◌, ◌*◌, ◌-◌, ◌≤◌, length};
ghost use Rattle.bits.specs.Bits.{pack, fill};
ghost use Rattle.hand_record.specs.Record.{held_widths, widths, held_values, values_of, written_in, written_of, buffer_of};
ghost use Rattle.std.proofs.lemmas.List.Edits.{sets};

use hand::{Hand, Held};
use hand_record::Written;
use refusals::Refusal;

// The bits of tiles held, m melds and then 13 - 3m tiles, and `pad` zero bits, stored from `at` on. An inner call of each writer.
pub fn pack_held(x: Held, b: &mut [u8], at: usize, pad: usize)
    requires { (x.m ≤ 4) × (pad ≤ 8) × (at + 8 * x.m + 6 * (13 - 3 * x.m) + pad ≤ length b.old) }
    ensures { b.new ≡ sets b.old at (pack (held_widths x.m pad) (held_values x)) }
{
    let m = x.m as usize;
    let melds = x.melds;
    let concealed = x.concealed;
    let ew = [8u8; 4];
    let sw = [6u8; 13];
    let k = 13 - 3 * m;
    let from = at + 8 * m;
    bits::pack_into(&ew[..m], &melds[..m], b, at);
    bits::pack_into(&sw[..k], &concealed[..k], b, from);
    bits::put(b, from + 6 * k, pad, 0);
}

// The bits of a hand, with zeros after them.
fn pack_hand(h: Hand) -> [u8; 104]
    requires { h.held.m ≤ 4 }
    ensures { result ≡ fill 104 (pack (widths h.held.m) (values_of h)) }
{
    let f = h.fields;
    let x = h.held;
    let m = x.m;
    let mut b = [0u8; 104];
    let hw = hand_record::HEAD;
    let hv = [
        f.how,
        f.winner,
        f.discarder,
        f.riichi,
        f.situation,
        f.indicator,
        f.winning,
        m,
    ];
    bits::pack_into(&hw, &hv, &mut b, 0);
    pack_held(x, &mut b, 25, hand_record::PADS[m as usize]);
    b
}

// Stores the hand's record at the front of the buffer and gives its length; refused with 2 to 5 or 13, and then no byte is stored.
pub fn try_write(h: Hand, buf: &mut [u8]) -> Result<usize, Refusal>
    ensures value { written_in result ≡ written_of h buf.old }
    ensures buf_after { buf.new ≡ buffer_of h buf.old }
{
    hand_refusals::check_writable(h)?;
    let n = hand_record::LENGTHS[h.held.m as usize];
    if buf.len() < n {
        return Err(Refusal::Buffer);
    }
    let b = pack_hand(h);
    let ew = [8u8; 13];
    bits::unpack_into(&ew[..n], &b, 0, buf);
    Ok(n)
}

// Write, as C is given it: 0 and the record's length, or the refusal and 0.
pub fn write(h: Hand, buf: &mut [u8]) -> Written
    ensures value { result ≡ written_of h buf.old }
    ensures buf_after { buf.new ≡ buffer_of h buf.old }
{
    Written::from(try_write(h, buf))
}
