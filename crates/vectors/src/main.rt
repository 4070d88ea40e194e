// Holds Score against another scorer: reads hands with that one's answers and says how many agree, with the number of each that differs.
// An entry is 54 bytes: the record's length, 16 bytes of it, dealer, wind, refusal, h, fu, the yaku set (yaku n is bit n % 8 of byte 22 + n / 8),
// how many readings are tried, four changes of 4 bytes from the least significant on, and the ten items of fu.
#![tactic(auto)]

ghost use Rattle.std.specs.Prelude.{◌+◌, ◌≤◌};

use points_fu::Items;
use score::Scored;
use std::io;
use std::io::{ErrorKind, Read};

// The number whose four bytes stand from i on, the least significant first.
fn number_at(e: &[u8; 54], i: usize) -> i32
    requires { i + 4 ≤ 54 }
{
    i32::from_le_bytes([e[i], e[i + 1], e[i + 2], e[i + 3]])
}

// The changes of an entry are these.
fn same_changes(e: &[u8; 54], changes: [i32; 4]) -> bool {
    changes
        .iter()
        .enumerate()
        .all(|(k, &change)| number_at(e, 28 + 4 * k) == change)
}

// The yaku set of an entry is this.
fn same_yaku(e: &[u8; 54], yaku: [bool; 37]) -> bool {
    yaku.iter().enumerate().all(|(n, &listed)| (e[22 + n / 8] >> (n % 8) & 1 == 1) == listed)
}

// The items of fu of an entry are these.
fn same_items(e: &[u8; 54], items: Items) -> bool {
    let told = [e[44], e[45], e[46], e[51], e[52], e[53]];
    let made = [
        items.base,
        items.ron,
        items.pair,
        items.wait,
        items.tsumo,
        items.rounding,
    ];
    told.iter().zip(&made).all(|(told, fu)| *told == fu.0)
        && e[47..51]
            .iter()
            .zip(&items.group)
            .all(|(told, fu)| *told == fu.0)
}

// What an entry says of its score is s.
fn is_told(e: &[u8; 54], s: Scored) -> bool {
    s.refusal == e[19]
        && s.h.0 == u16::from(e[20])
        && s.fu.0 == e[21]
        && same_items(e, s.items)
        && same_yaku(e, s.yaku)
        && s.tried == u32::from(e[27])
        && same_changes(e, s.changes)
}

// Score gives what the other scorer gives.
fn agrees(e: &[u8; 54]) -> bool {
    let n = usize::from(e[0]);
    n <= 16 && is_told(e, score::score(&e[1..=n], e[17], e[18]))
}

// Reads the next entry, or says that less than one is left.
fn next_entry<R: Read>(from: &mut R, e: &mut [u8; 54]) -> io::Result<bool> {
    match from.read_exact(e) {
        Ok(()) => Ok(true),
        Err(error) if error.kind() == ErrorKind::UnexpectedEof => Ok(false),
        Err(error) => Err(error),
    }
}

fn main(rt: HostRuntime) -> io::Result<()> {
    let mut from = rt.reader();
    let mut e = [0u8; 54];
    let mut agree = 0u64;
    let mut differ = 0u64;
    // stays a range: no more entries are read, and n is printed
    for n in 1..=1000000u64 {
        if !next_entry(&mut from, &mut e)? {
            break;
        }
        if agrees(&e) {
            agree += 1;
        } else {
            differ += 1;
            println!(rt; "{n} differs")?;
        }
    }
    println!(rt; "{agree} agree")?;
    println!(rt; "{differ} differ")
}
