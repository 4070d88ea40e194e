// The writers of an unfinished hand (02, S-1): from the tiles held, and from a record without its winning tile. They take all input.
#![tactic(auto)]

ghost use Rattle.std.specs.Prelude.{◌≡◌, ◌≤◌};
ghost use Rattle.bits.specs.Bits.{pack as pack_bits, fill};
ghost use Rattle.refusals.specs.Refusal.{refusal_in};
ghost use Rattle.hand_record.specs.Record.{written_in};
ghost use Rattle.unfinished.specs.Unfinished.{widths};
ghost use Rattle.unfinished_writer.specs.Write.{values_of, unwritable, refusal_after, written_by, buffer_by, written_of, buffer_of};
ghost use Rattle.unfinished_writer.specs.Write.{written_from, buffer_from};

use hand::Held;
use hand_record::Written;
use refusals::Refusal;

// What the writer refuses of the tiles held before it looks at the buffer: 2 to 4.
fn check_writable(x: Held) -> Result<(), Refusal>
    ensures { refusal_in result ≡ unwritable x }
{
    if (4 < x.m) | hand_refusals::unused_not_zero(x) {
        Err(Refusal::Field)
    } else {
        unfinished::check(x, 0)
    }
}

// The bits of an unfinished hand, with zeros after them.
fn pack(x: Held) -> [u8; 88]
    requires { x.m ≤ 4 }
    ensures { result ≡ fill 88 (pack_bits (widths x.m) (values_of x)) }
{
    let m = x.m;
    let mut b = [0u8; 88];
    bits::put(&mut b, 0, 3, m);
    hand_writer::pack_held(x, &mut b, 3, unfinished::PADS[m as usize]);
    b
}

// Stores the bytes of an unfinished hand at the front of the buffer and gives their length; 13 and no byte stored where they do not fit.
fn store(x: Held, buf: &mut [u8]) -> Result<usize, Refusal>
    requires { x.m ≤ 4 }
    ensures value { written_in result ≡ written_by (refusal_after 0 x buf.old) x }
    ensures buf_after { buf.new ≡ buffer_by (refusal_after 0 x buf.old) x buf.old }
{
    let n = unfinished::LENGTHS[x.m as usize];
    if buf.len() < n {
        return Err(Refusal::Buffer);
    }
    let b = pack(x);
    let ew = [8u8; 11];
    bits::unpack_into(&ew[..n], &b, 0, buf);
    Ok(n)
}

// Stores the unfinished hand that the tiles held are at the front of the buffer and gives its length; refused with 2 to 4 or 13, and then no byte is
// stored.
pub fn try_write(x: Held, buf: &mut [u8]) -> Result<usize, Refusal>
    ensures value { written_in result ≡ written_of x buf.old }
    ensures buf_after { buf.new ≡ buffer_of x buf.old }
{
    check_writable(x)?;
    store(x, buf)
}

// The same, as C is given it: 0 and the length, or the refusal and 0.
pub fn write(x: Held, buf: &mut [u8]) -> Written
    ensures value { result ≡ written_of x buf.old }
    ensures buf_after { buf.new ≡ buffer_of x buf.old }
{
    Written::from(try_write(x, buf))
}

// The same of the tiles held of a record, its winning tile left out; refused with 1 to 5 or 13, and then no byte is stored.
pub fn try_from_record(s: &[u8], buf: &mut [u8]) -> Result<usize, Refusal>
    ensures value { written_in result ≡ written_from s.now buf.old }
    ensures buf_after { buf.new ≡ buffer_from s.now buf.old }
{
    let h = hand_record::read(s).hand()?;
    store(h.held, buf)
}

// The same, as C is given it.
pub fn from_record(s: &[u8], buf: &mut [u8]) -> Written
    ensures value { result ≡ written_from s.now buf.old }
    ensures buf_after { buf.new ≡ buffer_from s.now buf.old }
{
    Written::from(try_from_record(s, buf))
}
