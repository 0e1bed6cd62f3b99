// A source that counts.
ghost use Rattle.std.specs.Prelude.{◌≡◌, ℕ, ◌+◌, ◌-◌, ◌^◌, ◌<◌, length, None, MatchResult, slice_index};
ghost use Rattle.nonces.specs.Sources.{counted, counted_in, count_refusal};
ghost use Rattle.nonces.specs.Proper.{counted_proper};

use crate::{NonceSource, joined};
use refusals::Refusal;
use std::ops::Range;

/// Nonces of an 8-byte prefix and a 64-bit count, each highest byte first.
// The ghost fields say what the types do, since `proper` is owed for any numbers in the fields.
#[derive(Drop)]
pub struct Counting {
    prefix: [u8; 8],
    counts: Range<u64>,
    ghost long: { length prefix ≡ 8 },
    ghost bytes: { (i : ℕ) → slice_index prefix i < 256 },
    ghost within: { counts.start + (counts.end - counts.start) < 2 ^ 64 },
}

impl Counting {
    /// A source of `amount` nonces whose count begins at `first`. It is refused where first + amount is above 2^64 - 1;
    /// with the amount 0 it is born empty.
    // What a source means is its implementation's to give, so the contract tells the nonces that are to come.
    pub fn new(prefix: &[u8; 8], first: u64, amount: u64) -> Result<Counting, Refusal>
        ensures { MatchResult result (λ s. (count_refusal first amount ≡ None) × (⟦<Counting as NonceSource>⟧.pending s ≡ counted prefix.now first amount)) (λ e. count_refusal first amount ≡ Some e) }
    {
        let end = first.checked_add(amount).ok_or(Refusal::CountRange)?;
        Ok(Counting {
            prefix: *prefix,
            counts: first..end,
        })
    }
}

impl NonceSource for Counting {
    ghost pending = { λ s. counted_in s.prefix s.counts };

    ghost proper = { λ s. counted_proper s.prefix s.counts.start (s.counts.end - s.counts.start) s.long s.bytes s.within };

    fn is_empty(&self) -> bool {
        self.counts.is_empty()
    }

    fn next(&mut self) -> Option<[u8; 16]> {
        let count = self.counts.next()?;
        Some(joined(self.prefix, count.to_be_bytes()))
    }
}
