// What is booked in a game (01, The game; 02, S-10), by value: the six bookings, and a correction by each result. Any value of the game and any bytes may
// be given. A booking gives the game after it, or the refusal.
#![tactic(auto)]

ghost use Rattle.std.specs.Prelude.{◌≡◌};
ghost use Rattle.std.specs.Result.{result_unwrap_or};
ghost use Rattle.refusals.specs.Refusal.{refusal_in};
ghost use Rattle.position.specs.Booking as Booking;
ghost use Rattle.position.specs.Ledger.{effect_of};
ghost use Rattle.game.specs.Game.{booking as booked, correction, fresh_game, game_out_of_form};
ghost use Rattle.game.specs.Runs.{Books};
ghost use Rattle.game_bookings.specs.search.Books.{checked_in, Makes};

use game::Game;
use position::Position;
use refusals::Refusal;

// A game with no booking yet: a fresh position, and nothing to supersede.
pub fn fresh_game() -> Game
    ensures { result ≡ fresh_game }
{
    let now = position_bookings::fresh_position();
    Game {
        now,
        earlier: now,
        correctable: 0,
    }
}

// The game is out of form: its position is, or the earlier one that is kept.
fn out_of_form(g: Game) -> bool
    ensures { result ≡ game_out_of_form g }
{
    position_form::out_of_form(g.now)
        | ((0 < g.correctable) & position_form::out_of_form(g.earlier))
}

// The position in which a booking is made: the one that stands. Where the earlier one is kept and out of form it is that one, in which every booking meets
// the 8 or the 9 that it meets in a game out of form.
fn checked(g: Game) -> Position
    ensures { result ≡ checked_in g }
{
    if (0 < g.correctable) & position_form::out_of_form(g.earlier) {
        g.earlier
    } else {
        g.now
    }
}

// The game after a booking, by how it is made in a position: the position after it stands, the one before it is the earlier one, and a booking that
// finishes a hand can be superseded. Refused as it is in the position; with 9 too where the earlier position is kept and out of form.
fn book<F: FnOnce(Position) -> Result<Position, Refusal>>(
    g: Game,
    finishes: bool,
    booking: F,
) -> Result<Game, Refusal>
    requires { F.IsAlwaysCallable booking }
    ensures { (b : Booking.Booking) → (effect_of g.now b).finishes ≡ finishes → Makes (F.post booking (checked_in g)) (checked_in g) b → Books g (booked b) (refusal_in result) (result_unwrap_or result g) }
{
    let now = booking(checked(g))?;
    Ok(Game {
        now,
        earlier: g.now,
        correctable: u32::from(finishes),
    })
}

// The game after a result, by how it is booked in a position; it can be superseded.
pub fn finish<F: FnOnce(Position) -> Result<Position, Refusal>>(
    g: Game,
    booking: F,
) -> Result<Game, Refusal>
    requires { F.IsAlwaysCallable booking }
    ensures { (r : Booking.Result) → Makes (F.post booking (checked_in g)) (checked_in g) (Booking.result r) → Books g (booked (Booking.result r)) (refusal_in result) (result_unwrap_or result g) }
{
    book(g, true, booking)
}

// The correction of the last finished booking by a result, by how that is booked in a position: it is booked in the earlier one. Refused with 9, a game out
// of form; 20, none to supersede; then as that result is.
pub fn correct<F: FnOnce(Position) -> Result<Position, Refusal>>(
    g: Game,
    booking: F,
) -> Result<Game, Refusal>
    requires { F.IsAlwaysCallable booking }
    ensures { (r : Booking.Result) → Makes (F.post booking g.earlier) g.earlier (Booking.result r) → Books g (correction r) (refusal_in result) (result_unwrap_or result g) }
{
    if out_of_form(g) {
        return Err(Refusal::NotOpen);
    }
    if g.correctable == 0 {
        return Err(Refusal::Supersede);
    }
    let now = booking(g.earlier)?;
    Ok(Game {
        now,
        earlier: g.earlier,
        correctable: 1,
    })
}

// Riichi of a seat. Refused with 8, 9, 10, 21 as `position_bookings::riichi` has it; 9 too where the earlier position is kept and out of form, as every
// booking is.
pub fn riichi(g: Game, seat: u8) -> Result<Game, Refusal>
    ensures { Books g (booked (Booking.riichi seat)) (refusal_in result) (result_unwrap_or result g) }
{
    book(g, false, |p| position_bookings::riichi(p, seat))
}

// The feeder of a holder's yaku, named for this hand.
pub fn pao(g: Game, holder: u8, feeder: u8, yaku: u8) -> Result<Game, Refusal>
    ensures { Books g (booked (Booking.pao holder feeder yaku)) (refusal_in result) (result_unwrap_or result g) }
{
    book(
        g,
        false,
        |p| position_bookings::pao(p, holder, feeder, yaku),
    )
}

// Win by a record; it can be superseded.
pub fn win(g: Game, s: &[u8]) -> Result<Game, Refusal>
    ensures { Books g (booked (Booking.result (Booking.win s.now))) (refusal_in result) (result_unwrap_or result g) }
{
    finish(g, |p| position_win::win(p, s))
}

// Draw, by four bits of who is ready; it can be superseded.
pub fn draw(g: Game, bits: u8) -> Result<Game, Refusal>
    ensures { Books g (booked (Booking.result (Booking.draw bits))) (refusal_in result) (result_unwrap_or result g) }
{
    finish(g, |p| position_bookings::draw(p, bits))
}

// Chombo of a seat; it can be superseded.
pub fn chombo(g: Game, seat: u8) -> Result<Game, Refusal>
    ensures { Books g (booked (Booking.result (Booking.chombo seat))) (refusal_in result) (result_unwrap_or result g) }
{
    finish(g, |p| position_bookings::chombo(p, seat))
}

// Multiple ron: the number of records, and the records end to end; they can be superseded, as one booking.
pub fn multi_ron(g: Game, number: u8, s: &[u8]) -> Result<Game, Refusal>
    ensures { Books g (booked (Booking.result (Booking.multi_ron number s.now))) (refusal_in result) (result_unwrap_or result g) }
{
    finish(g, |p| position_multi_ron::multi_ron(p, number, s))
}

// The correction of the last finished booking by a win.
pub fn correct_win(g: Game, s: &[u8]) -> Result<Game, Refusal>
    ensures { Books g (correction (Booking.win s.now)) (refusal_in result) (result_unwrap_or result g) }
{
    correct(g, |p| position_win::win(p, s))
}

// The same by a draw.
pub fn correct_draw(g: Game, bits: u8) -> Result<Game, Refusal>
    ensures { Books g (correction (Booking.draw bits)) (refusal_in result) (result_unwrap_or result g) }
{
    correct(g, |p| position_bookings::draw(p, bits))
}

// The same by a chombo.
pub fn correct_chombo(g: Game, seat: u8) -> Result<Game, Refusal>
    ensures { Books g (correction (Booking.chombo seat)) (refusal_in result) (result_unwrap_or result g) }
{
    correct(g, |p| position_bookings::chombo(p, seat))
}

// The same by a multiple ron.
pub fn correct_multi_ron(g: Game, number: u8, s: &[u8]) -> Result<Game, Refusal>
    ensures { Books g (correction (Booking.multi_ron number s.now)) (refusal_in result) (result_unwrap_or result g) }
{
    correct(g, |p| position_multi_ron::multi_ron(p, number, s))
}
