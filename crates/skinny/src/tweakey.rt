//! The tweakey schedule, on vectors of 16 cells, four rounds at a time.
ghost use Rattle.std.specs.Prelude.{◌≡◌, ℕ, ◌+◌, List, map, bit_xor};
ghost use Rattle.std.specs.Simd.Lanes.{zip2};
ghost use Rattle.skinny.specs.Schedule.{InRound, four_tweakeys};
ghost use Rattle.skinny.specs.Skinny.{lfsr2 as lfsr2_of, lfsr3 as lfsr3_of, permuted};

use std::simd::prelude::*;

/// The LFSR of TK2 on each cell.
fn lfsr2(t: u8x16) -> u8x16
    ensures { result ≡ map lfsr2_of t }
{
    (t << u8x16::splat(1)) | (((t >> u8x16::splat(7)) ^ (t >> u8x16::splat(5))) & u8x16::splat(1))
}

/// The LFSR of TK3 on each cell.
fn lfsr3(t: u8x16) -> u8x16
    ensures { result ≡ map lfsr3_of t }
{
    (t >> u8x16::splat(1)) | ((t ^ (t >> u8x16::splat(6))) << u8x16::splat(7))
}

/// The tweakey permutation, four times.
fn permuted_four(t: u8x16) -> u8x16
    ensures { result ≡ permuted (permuted (permuted (permuted t))) }
{
    t.swizzle([7, 3, 1, 6, 0, 4, 2, 5, 15, 11, 9, 14, 8, 12, 10, 13])
}

/// TK1, TK2 and TK3 of one round.
#[derive(Clone, Copy)]
pub struct Thirds {
    first: u8x16,
    second: u8x16,
    third: u8x16,
}

impl Thirds {
    /// The thirds of a tweakey, for round 0.
    pub fn new(tweakey: &[u8; 48]) -> Self
        ensures { InRound tweakey.now 0 result }
    {
        Thirds {
            first: u8x16::from_slice(&tweakey[0..16]),
            second: u8x16::from_slice(&tweakey[16..32]),
            third: u8x16::from_slice(&tweakey[32..48]),
        }
    }

    /// The LFSRs on all cells. Two updates do that too, since they bring each cell into the upper rows once.
    fn stepped(self) -> Self
        ensures first { result.first ≡ self.first }
        ensures second { result.second ≡ map lfsr2_of self.second }
        ensures third { result.third ≡ map lfsr3_of self.third }
    {
        Thirds {
            first: self.first,
            second: lfsr2(self.second),
            third: lfsr3(self.third),
        }
    }

    /// TK1 ⊕ TK2 ⊕ TK3.
    fn sum(self) -> u8x16
        ensures { result ≡ zip2 bit_xor (zip2 bit_xor self.first self.second) self.third }
    {
        self.first ^ self.second ^ self.third
    }

    /// The round tweakeys of this round and the next three, and the thirds of the round after them.
    /// Cells are moved once for all four, which is what makes it quick: until then a round tweakey is read at the places
    /// that its cells come from.
    #[tactic(auto, using(crate::proofs::Updates::four_picked))]
    pub fn next_four(self) -> ([[u8; 8]; 4], Self)
        ensures tweakeys { (T : List ℕ) (n : ℕ) → InRound T n self → result.0 ≡ four_tweakeys T n }
        ensures next { (T : List ℕ) (n : ℕ) → InRound T n self → InRound T (n + 4) result.1 }
    {
        let once = self.stepped();
        let twice = once.stepped();
        let sum0 = self.sum();
        let sum1 = once.sum();
        let sum2 = twice.sum();
        let tweakeys = [
            sum0.swizzle([0, 1, 2, 3, 4, 5, 6, 7]).to_array(),
            sum1.swizzle([9, 15, 8, 13, 10, 14, 12, 11]).to_array(),
            sum1.swizzle([1, 7, 0, 5, 2, 6, 4, 3]).to_array(),
            sum2.swizzle([15, 11, 9, 14, 8, 12, 10, 13]).to_array(),
        ];
        let next = Thirds {
            first: permuted_four(twice.first),
            second: permuted_four(twice.second),
            third: permuted_four(twice.third),
        };
        (tweakeys, next)
    }
}
