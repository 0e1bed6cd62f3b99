//! One cipher of the three, chosen at run time.
#![tactic(auto)]

ghost use Rattle.std.specs.Prelude.{◌≡◌, refl};
ghost use Rattle.cipher.specs.Cipher.{stand_in};
ghost use Rattle.skinny.specs.Skinny.{skinny as skinny_of};
ghost use Rattle.skinny.specs.RoundCount.{round_count};
ghost use Rattle.any_cipher.specs.AnyCipher.{any_answer};
ghost use Rattle.skinny.specs.Sixteen.{answer_long};
ghost use Rattle.any_cipher.specs.declared.AnyCipher.TheVariants.{Skinny, StandIn};

use cipher::{BlockCipher, StandIn};
use skinny::{Rounds, Skinny};

/// Skinny with 40 or 56 rounds, or the bench stand-in.
#[derive(Clone, Copy)]
pub enum AnyCipher {
    Skinny(Skinny),
    StandIn(StandIn),
}

impl AnyCipher {
    /// Skinny-128-384 with so many rounds.
    pub fn skinny(rounds: Rounds) -> Self
        ensures { any_answer result ≡ skinny_of (round_count rounds) }
    {
        AnyCipher::Skinny(Skinny::new(rounds))
    }

    /// The bench stand-in.
    pub fn stand_in() -> Self
        ensures { any_answer result ≡ stand_in }
    {
        AnyCipher::StandIn(StandIn)
    }
}

impl BlockCipher for AnyCipher {
    ghost answer = { any_answer };

    ghost sixteen = { elim [ Skinny s ↦ answer_long s.rounds | StandIn _ ↦ λ tweakey block. refl ] };

    fn encrypt_block(&self, tweakey: &[u8; 48], block: &[u8; 16]) -> [u8; 16] {
        match self {
            AnyCipher::Skinny(c) => c.encrypt_block(tweakey, block),
            AnyCipher::StandIn(c) => c.encrypt_block(tweakey, block),
        }
    }
}
