//! The block cipher Skinny-128-384, with 40 or with 56 rounds.
#![tactic(auto)]

mod constants;
mod encryption;
mod round;
mod sbox;
mod tweakey;

ghost use Rattle.std.specs.Prelude.{◌≡◌};
ghost use Rattle.skinny.specs.RoundCount.{round_count, Named};

/// How many rounds: 40 in Skinny-128-384+, 56 in Skinny-128-384 as it was first published.
#[derive(Clone, Copy)]
pub enum Rounds {
    Forty = 40,
    FiftySix = 56,
}

impl Rounds {
    /// The number of rounds.
    pub fn count(self) -> usize
        ensures { result ≡ round_count self }
    {
        self as usize
    }
}

/// A number of rounds that neither cipher has.
#[derive(Clone, Copy, Debug, PartialEq, Eq)]
pub struct UnknownRounds(pub u32);

impl TryFrom<u32> for Rounds {
    type Error = UnknownRounds;

    ghost try_from_gives = { Named };

    fn try_from(count: u32) -> Result<Self, UnknownRounds> {
        match count {
            40 => Ok(Rounds::Forty),
            56 => Ok(Rounds::FiftySix),
            _ => Err(UnknownRounds(count)),
        }
    }
}

/// Skinny-128-384 with so many rounds.
#[derive(Clone, Copy)]
pub struct Skinny {
    rounds: Rounds,
}

impl Skinny {
    /// The cipher with so many rounds.
    pub fn new(rounds: Rounds) -> Self
        ensures { result.rounds ≡ rounds }
    {
        Skinny { rounds }
    }

    /// How many rounds it has.
    pub fn rounds(&self) -> Rounds
        ensures { result ≡ self.now.rounds }
    {
        self.rounds
    }
}
