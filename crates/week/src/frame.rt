//! A sealed record as it lies on the shelf.
use std::alloc::{AllocError, Global};

/// A frame: nonce, label as associated data, ciphertext and tag.
#[derive(PartialEq, Eq, Drop)]
pub struct Frame {
    pub nonce: [u8; 16],
    pub label: Vec<u8>,
    pub text: Vec<u8>,
    pub tag: [u8; 16],
}

impl Frame {
    /// A frame with room for a text of `len` bytes, not sealed yet.
    pub(crate) fn blank(
        heap: Global,
        nonce: [u8; 16],
        label: &[u8],
        len: usize,
    ) -> Result<Frame, AllocError> {
        Ok(Frame {
            nonce,
            label: label.to_vec(heap)?,
            text: vec![in heap; 0; len]?,
            tag: [0; 16],
        })
    }

    /// The label, which anybody reads off the frame without a key.
    pub(crate) fn label(&self) -> &str {
        std::str::from_utf8(self.label.as_slice()).unwrap_or("(no text)")
    }
}
