//! What is sealed in one case, and the frame that came of it.
use std::alloc::{AllocError, Global};

// A text of `len` bytes, of which byte i is i * factor + first, modulo 256.
fn pattern(heap: Global, len: usize, factor: u8, first: usize) -> Result<Vec<u8>, AllocError> {
    let first = (first % 256) as u8;
    (0..len)
        .map(|i| ((i % 256) as u8).wrapping_mul(factor).wrapping_add(first))
        .collect(heap)
}

/// Nonce, data and message, made from the two lengths.
#[derive(Drop)]
pub struct Case {
    pub nonce: Vec<u8>,
    pub ad: Vec<u8>,
    pub message: Vec<u8>,
}

impl Case {
    pub(crate) fn new(heap: Global, ad: usize, len: usize) -> Result<Case, AllocError> {
        Ok(Case {
            nonce: pattern(heap, 16, 1, ad.wrapping_add(len.wrapping_mul(3)))?,
            ad: pattern(heap, ad, 7, ad)?,
            message: pattern(heap, len, 11, len.wrapping_add(5))?,
        })
    }
}

/// A part of a frame, of which one bit can be turned.
#[derive(Clone, Copy)]
pub enum Part {
    Nonce,
    Data,
    Text,
    Tag,
}

/// A frame.
#[derive(Clone, Drop)]
pub struct Sealed {
    pub nonce: Vec<u8>,
    pub ad: Vec<u8>,
    pub text: Vec<u8>,
    pub tag: Vec<u8>,
}

impl Sealed {
    /// The frame with the highest bit of a part's last byte turned; none where the part is empty.
    pub(crate) fn damaged(&self, part: Part) -> Result<Option<Sealed>, AllocError> {
        let mut copy = self.clone()?;
        let bytes = match part {
            Part::Nonce => &mut copy.nonce,
            Part::Data => &mut copy.ad,
            Part::Text => &mut copy.text,
            Part::Tag => &mut copy.tag,
        };
        let Some(last) = bytes.as_mut_slice().last_mut() else {
            return Ok(None);
        };
        *last ^= 0x80;
        Ok(Some(copy))
    }
}
