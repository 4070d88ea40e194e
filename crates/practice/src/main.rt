// Practice cards as they are printed (02, S-9), for the gate to hold them to those of another scorer: of two tiles of man, five of pin and
// eight of sou, how many there are, then each on a line.
#![tactic(auto)]

ghost use Rattle.std.specs.Prelude.{◌<◌};

use std::io;

// Prints a card, in one write: the numbers on its tiles, at most eight, and the letter of their suit.
fn print_card<R: Print>(rt: &R, tiles: &[u8], letter: u8) -> io::Result<()> {
    let size = tiles.len().min(8);
    let mut line = [b'\n'; 10];
    for (byte, tile) in line.iter_mut().zip(&tiles[..size]) {
        *byte = b'1' + tile % 9;
    }
    line[size] = letter;
    rt.write_all(&line[..size + 2])
}

// Prints how many cards a suit has of so many tiles, in three digits, then each.
fn print_cards<R: Print>(rt: &R, suit: u8, size: u8, letter: u8) -> io::Result<()>
    requires { 0 < size }
{
    let mut page = [0u8; 7968];
    let count = card_writer::write(suit, size, &mut page).count;
    println!(rt; "{count:03}")?;
    for card in page
        .chunks_exact(usize::from(size))
        .take(usize::from(count))
    {
        print_card(rt, card, letter)?;
    }
    Ok(())
}

fn main(rt: HostRuntime) -> io::Result<()> {
    print_cards(&rt, 0, 2, b'm')?;
    print_cards(&rt, 1, 5, b'p')?;
    print_cards(&rt, 2, 8, b's')
}
