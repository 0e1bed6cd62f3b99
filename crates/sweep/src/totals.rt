//! What a sweep counts, and the digest over its frames.
use crate::case::Sealed;
use cipher::Counted;
use romulus_h::hash;
use skinny::{Rounds, Skinny};
use std::alloc::{AllocError, Global};
use std::fmt;

/// Counts over all cases of one mode on one cipher.
#[derive(Default, Drop)]
pub struct Totals {
    frames: u64,
    right: u64,
    damaged: u64,
    refused: u64,
    calls: u64,
    /// Calls of which the count, the told cost and the answered cost were not the same number.
    strays: u64,
    digest: [u8; 32],
}

impl Totals {
    /// An undamaged frame, and whether its opening gave the message back.
    pub(crate) fn count_right(&mut self, right: bool) {
        self.frames = self.frames.wrapping_add(1);
        self.right = self.right.wrapping_add(u64::from(right));
    }

    /// A damaged frame, and whether it was refused with 13.
    pub(crate) fn count_damaged(&mut self, refused: bool) {
        self.damaged = self.damaged.wrapping_add(1);
        self.refused = self.refused.wrapping_add(u64::from(refused));
    }

    /// How far the cipher's count rose, what the mode told before, and what the call answered.
    pub(crate) fn count_calls(&mut self, rose: u64, told: u64, answered: u64) {
        self.calls = self.calls.wrapping_add(rose);
        if rose != told || rose != answered {
            self.strays = self.strays.wrapping_add(1);
        }
    }

    /// The digest over the frames so far.
    pub(crate) fn digest(&self) -> &[u8] {
        &self.digest
    }

    /// The digest goes on to that of itself, the ciphertext and the tag.
    pub(crate) fn chain(&mut self, heap: Global, sealed: &Sealed) -> Result<(), AllocError> {
        let mut input = self.digest.to_vec(heap)?;
        input.extend_from_slice(sealed.text.as_slice())?;
        input.extend_from_slice(sealed.tag.as_slice())?;
        let mut cipher = Counted::new(Skinny::new(Rounds::Forty));
        let _ = hash(&mut cipher, input.as_slice(), &mut self.digest);
        Ok(())
    }
}

impl fmt::Display for Totals {
    fn fmt<W: fmt::Write>(&self, f: &mut fmt::Formatter<W>) -> fmt::Result {
        let Totals {
            frames,
            right,
            damaged,
            refused,
            calls,
            strays,
            ..
        } = self;
        write!(
            f,
            "{frames} frames, {right} opened, {refused} of {damaged} damaged refused, {calls} calls, {strays} strays"
        )
    }
}
