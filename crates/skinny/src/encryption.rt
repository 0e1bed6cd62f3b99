//! The cipher's one call.
ghost use Rattle.std.specs.Prelude.{◌≡◌, ℕ, ◌+◌, List};
ghost use Rattle.skinny.specs.RoundCount.{round_count};
ghost use Rattle.skinny.specs.Schedule.{four_constants, four_tweakeys};
ghost use Rattle.skinny.specs.Skinny.{rounds as rounds_of, skinny as skinny_of};
ghost use Rattle.skinny.specs.Sixteen.{answer_long};

use crate::constants::in_fours;
use crate::round::round;
use crate::tweakey::Thirds;
use crate::{Rounds, Skinny};
use cipher::BlockCipher;

impl BlockCipher for Skinny {
    ghost answer = { λ s. skinny_of (round_count s.rounds) };

    ghost sixteen = { λ s. answer_long s.rounds };

    fn encrypt_block(&self, tweakey: &[u8; 48], block: &[u8; 16]) -> [u8; 16] {
        answer(self.rounds, tweakey, block)
    }
}

/// The cipher's answer for a block under a tweakey.
fn answer(rounds: Rounds, tweakey: &[u8; 48], block: &[u8; 16]) -> [u8; 16]
    ensures { result ≡ skinny_of (round_count rounds) tweakey.now block.now }
{
    let mut thirds = Thirds::new(tweakey);
    let mut s = *block;
    for constants in in_fours(rounds) {
        let (tweakeys, next) = thirds.next_four();
        s = four_rounds(constants, &tweakeys, &s);
        thirds = next;
    }
    s
}

/// Four rounds with their constants and their round tweakeys.
fn four_rounds(constants: &[u8; 4], tweakeys: &[[u8; 8]; 4], s: &[u8; 16]) -> [u8; 16]
    ensures { (T b : List ℕ) (n : ℕ) → constants.now ≡ four_constants n → tweakeys.now ≡ four_tweakeys T n → s.now ≡ rounds_of T b n → result ≡ rounds_of T b (n + 4) }
{
    let s1 = round(constants[0], &tweakeys[0], s);
    let s2 = round(constants[1], &tweakeys[1], &s1);
    let s3 = round(constants[2], &tweakeys[2], &s2);
    round(constants[3], &tweakeys[3], &s3)
}
