// Why a call is refused: the refusals of documents 01 and 02 (docs/REFUSALS.md). 12 "is never given now" (02, S-7): no value of the type stands for it.
#![tactic(auto)]

ghost use Rattle.std.specs.Prelude.{◌≡◌, ◌≤◌};
ghost use Rattle.refusals.specs.Refusal.{number as number_of, refusal_in};

// A refusal, named as the header names its number.
#[derive(Clone, Copy, Debug, PartialEq, Eq)]
pub enum Refusal {
    Length = 1,
    Field = 2,
    Descending = 3,
    OverFour = 4,
    Situation = 5,
    NoReading = 6,
    NoYaku = 7,
    Argument = 8,
    NotOpen = 9,
    Declared = 10,
    Riichi = 11,
    Buffer = 13,
    Entry = 14,
    Discard = 15,
    Page = 16,
    MultiRon = 17,
    Pao = 18,
    Cards = 19,
    Supersede = 20,
    Stick = 21,
    Claim = 22,
}

// The papers' number of a refusal.
impl From<Refusal> for u8 {
    ghost from_gives = { λ r n. n ≡ number_of r };

    fn from(r: Refusal) -> u8
        ensures value { result ≡ number_of r }
        ensures bounds { (1 ≤ result) × (result ≤ 22) }
    {
        r as u8
    }
}

// The number of the refusal that a call met, 0 where it met none: what C is given.
pub fn number<T: Copy>(given: Result<T, Refusal>) -> u8
    ensures value { result ≡ refusal_in given }
    ensures upper_bound { result ≤ 22 }
{
    match given {
        Ok(_) => 0,
        Err(r) => u8::from(r),
    }
}
