// A log booked in a game, entry by entry, and where a walk over it stands (01, Log; 02, S-6, S-8 and S-10). The public calls take all input.
#![tactic(auto)]

ghost use Rattle.std.specs.Prelude.{◌≡◌, ◌<◌, IfOk, IfErr, IfSome};
ghost use Rattle.std.specs.Result.{result_unwrap_or};
ghost use Rattle.refusals.specs.Refusal.{refusal_in};
ghost use Rattle.position.specs.Booking as Booking;
ghost use Rattle.position.specs.Ledger.{Moves};
ghost use Rattle.game.specs.Game.{booking};
ghost use Rattle.game.specs.Runs.{Books};
ghost use Rattle.log_entry.specs.EntryKind.{number};
ghost use Rattle.log_entry.specs.Entry.{IsEntry};
ghost use Rattle.log_entry.specs.search.Lengths.{holder_in, feeder_in, yaku_in};
ghost use Rattle.log_entry.specs.search.Found.{result_by, entry_of};
ghost use Rattle.log_walk.specs.Walk.{told, step_of, BooksEntry, started};

use game::Game;
use log_entry::EntryKind;
use position::Position;
use refusals::Refusal;

// An entry booked: its letter, its length, header included, and the game after it or its refusal.
// stays a byte, its letter: it is printed
#[derive(Clone, Copy)]
pub struct Step {
    pub letter: u8,
    pub len: usize,
    pub booked: Result<Game, Refusal>,
}

// Pao, by the byte after the header.
fn book_pao(g: Game, s: &[u8]) -> Result<Game, Refusal>
    ensures { Books g (booking (Booking.pao (holder_in s.now) (feeder_in s.now) (yaku_in s.now))) (refusal_in result) (result_unwrap_or result g) }
{
    let byte = s.first().copied().unwrap_or(0);
    let holder = log_entry::holder(byte);
    let feeder = log_entry::feeder(byte);
    game_bookings::pao(g, holder, feeder, log_entry::yaku(byte))
}

// The result of a kind in a position, by its argument and the bytes after the header. These are a win's record, or all records of a multiple ron.
fn book_result(p: Position, kind: EntryKind, argument: u8, s: &[u8]) -> Result<Position, Refusal>
    ensures { Moves p (Booking.result (result_by (number kind) argument s.now)) (refusal_in result) (result_unwrap_or result p) }
{
    match kind {
        EntryKind::Win => position_win::win(p, s),
        EntryKind::Draw => position_bookings::draw(p, argument),
        EntryKind::MultiRon => position_multi_ron::multi_ron(p, argument, s),
        _ => position_bookings::chombo(p, argument),
    }
}

// An entry's bytes, booked. A correction's result stands in the entry after its header.
fn book_part(g: Game, part: &[u8]) -> Result<Game, Refusal>
    requires { IsEntry part.now (entry_of part.now) }
    ensures { Books g (entry_of part.now) (refusal_in result) (result_unwrap_or result g) }
{
    let header = part[0];
    let kind = EntryKind::try_from(log_entry::kind(header))?;
    match kind {
        EntryKind::Riichi => game_bookings::riichi(g, log_entry::argument(header)),
        EntryKind::Pao => book_pao(g, &part[1..]),
        EntryKind::Correction => {
            let inner = part[1];
            let kind = EntryKind::try_from(log_entry::kind(inner))?;
            let argument = log_entry::argument(inner);
            let rest = &part[2..];
            game_bookings::correct(g, |p| book_result(p, kind, argument, rest))
        }
        _ => {
            let argument = log_entry::argument(header);
            let rest = &part[1..];
            game_bookings::finish(g, |p| book_result(p, kind, argument, rest))
        }
    }
}

// Books the entry at an offset of a log. Past the log's end there is none; where bytes are left and they start with no entry it is refused with 14.
pub fn book_at(g: Game, s: &[u8], at: usize) -> Result<Option<Step>, Refusal>
    ensures value { told g result ≡ step_of g s.now at }
    ensures some { IfOk result (λ step. IfSome step (λ t. 0 < t.len)) }
    ensures err { IfErr result (λ r. r ≡ Refusal.Entry) }
{
    let Some(part) = log_entry::next_entry(s, at)? else {
        return Ok(None);
    };
    Ok(Some(Step {
        letter: log_entry::letter(log_entry::kind(part[0])),
        len: part.len(),
        booked: book_part(g, part),
    }))
}

// Books the entry that bytes start with, as a part that Next entry hands back; 14 where they start with none.
pub fn book_entry(g: Game, s: &[u8]) -> Result<Game, Refusal>
    ensures { BooksEntry g s.now (refusal_in result) (result_unwrap_or result g) }
{
    match book_at(g, s, 0)? {
        Some(step) => step.booked,
        None => Err(Refusal::Entry),
    }
}

// Where a walk over a log stands: the game so far, and the number and the offset of the next entry.
#[repr(C)]
#[derive(Clone, Copy)]
pub struct Walk {
    pub game: Game,
    pub entry: u32,
    pub at: usize,
}

// A walk before the first entry, over a fresh game.
pub fn start() -> Walk
    ensures { result ≡ started }
{
    Walk {
        game: game_bookings::fresh_game(),
        entry: 1,
        at: 0,
    }
}

// How many bytes were written, and where the walk then stands.
#[repr(C)]
#[derive(Clone, Copy)]
pub struct Printed {
    pub written: usize,
    pub walk: Walk,
}
