// A source that reads a lent sheet.
ghost use Rattle.std.specs.Prelude.{◌≡◌, map, Decides, MatchResult};
ghost use Rattle.std.specs.List.{Contains};
ghost use Rattle.nonces.specs.Nonces.{NoRepeats};
ghost use Rattle.nonces.specs.Sources.{nonce_of, sheet_nonces, SheetSized, SheetRefused};
ghost use Rattle.nonces.specs.Proper.{sheet_proper};

use crate::{NonceSource, from_two_numbers};
use refusals::Refusal;

// The largest sheet has 4,096 nonces.
const MOST_ENTRIES: usize = 8192;

/// Nonces from a lent list of numbers, two for each, in order. Those left are all different.
#[derive(Drop)]
pub struct Sheet<'a> {
    rest: &'a [[u64; 2]],
    ghost different: { NoRepeats (map nonce_of rest.now) },
}

// Whether a pair stands among these. The library's `contains` is plainer, and takes a sixth longer over the largest sheet.
fn stands(pair: &[u64; 2], pairs: &[[u64; 2]]) -> bool
    ensures { Decides result (Contains pairs.now pair.now) }
{
    pairs.iter().any(|other| other == pair)
}

// Whether these pairs are all different: every two are compared.
fn all_different(pairs: &[[u64; 2]]) -> bool
    ensures { Decides result (NoRepeats pairs.now) }
{
    let mut left = pairs;
    // cut by hand, since no iterator hands out an item with those behind it
    while let Some((pair, more)) = left.split_first() {
        if stands(pair, more) {
            return false;
        }
        left = more;
    }
    true
}

impl<'a> Sheet<'a> {
    /// A source of the nonces on a sheet. It is refused for its size, or for a nonce that stands on it twice.
    // What a source means is its implementation's to give, so the contract tells the nonces that are to come.
    pub fn new(entries: &'a [u64]) -> Result<Sheet<'a>, Refusal>
        ensures { MatchResult result (λ s. SheetSized entries.now × NoRepeats (sheet_nonces entries.now) × (⟦<Sheet<'a> as NonceSource>⟧.pending s ≡ sheet_nonces entries.now)) (λ e. SheetRefused entries.now e) }
    {
        let (pairs, odd) = entries.as_chunks::<2>();
        if !odd.is_empty() || entries.len() > MOST_ENTRIES {
            return Err(Refusal::SheetSize);
        }
        if !all_different(pairs) {
            return Err(Refusal::SheetRepeats);
        }
        Ok(Sheet { rest: pairs })
    }
}

impl<'a> NonceSource for Sheet<'a> {
    ghost pending = { λ s. map nonce_of s.rest.now };

    ghost proper = { λ s. sheet_proper s.rest.now s.different };

    fn is_empty(&self) -> bool {
        self.rest.is_empty()
    }

    fn next(&mut self) -> Option<[u8; 16]> {
        let ([high, low], rest) = self.rest.split_first()?;
        self.rest = rest;
        Some(from_two_numbers(*high, *low))
    }
}
