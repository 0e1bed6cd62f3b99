//! Nonce sources: what a source means, a source that counts, and one that reads a sheet.
#![tactic(auto)]

ghost use Rattle.std.specs.Prelude.{◌≡◌, ℕ, List, [], ◌∷◌, ◌++◌, Decides, MatchOption};
ghost use Rattle.nonces.specs.Nonces.{NoRepeats, NoncesProper, words};
ghost use Rattle.nonces.specs.Sources.{big_endian, sheet_nonces};
ghost use Rattle.nonces.specs.LastPlaces.{last_places};

mod counting;
mod sheet;

pub use counting::Counting;
pub use sheet::Sheet;

/// A source of nonces: the list of those still to come, without repeats.
pub trait NonceSource {
    // The nonces still to come, in order.
    ghost pending: { Self → List (List ℕ) };

    // Each has 16 bytes, and none comes twice.
    ghost proper: { (s : Self) → NoncesProper (pending s) };

    /// Whether no nonce is left.
    fn is_empty(&self) -> bool
        ensures { Decides result (pending self.now ≡ []) };

    /// Takes the next nonce, and leaves the rest. It answers `None` only where no nonce is left, and then none is left after it.
    fn next(&mut self) -> Option<[u8; 16]>
        ensures { MatchOption result ((pending self.old ≡ []) × (pending self.new ≡ [])) (λ n. pending self.old ≡ n ∷ pending self.new) };
}

// Two functions, since both types are the language's own, and no `From` of ours may stand between them.
/// A nonce as two numbers, each highest byte first, as a sheet has it.
pub fn two_numbers(nonce: &[u8; 16]) -> (u64, u64)
    ensures { result ≡ words nonce.now }
{
    let (halves, _) = nonce.as_chunks();
    (u64::from_be_bytes(halves[0]), u64::from_be_bytes(halves[1]))
}

/// The nonce that is told as these two numbers.
pub fn from_two_numbers(high: u64, low: u64) -> [u8; 16]
    ensures value { result ≡ big_endian high ++ big_endian low }
    ensures back { words result ≡ (high, low) }
{
    joined(high.to_be_bytes(), low.to_be_bytes())
}

// Two halves of a nonce, joined.
fn joined(a: [u8; 8], b: [u8; 8]) -> [u8; 16]
    ensures { result ≡ a ++ b }
{
    [a, b].as_flattened().try_into().unwrap()
}

/// Whatever stands on a sheet, its nonces at their last places are what a source owes; and where they are all different, they are all of them.
/// The theorem stands in the contract; the call does nothing.
pub fn last_places_are_proper(entries: &[u64])
    ensures proper { NoncesProper (last_places (sheet_nonces entries.now)) }
    ensures same { NoRepeats (sheet_nonces entries.now) → last_places (sheet_nonces entries.now) ≡ sheet_nonces entries.now }
{
    let _ = entries;
}
