//! Calls of mixed kinds on one post.
use crate::books::{Books, Expected};
use crate::generator::Generator;
use cipher::Cipher;
use mode::{Mode, Outcome, is_clear};
use nonces::{NonceSource, from_two_numbers};
use post::Post;
use refusals::Refusal;
use std::alloc::{AllocError, Global};

/// A frame, and the message that it was sealed from; before the first seal an empty frame that nobody sealed.
#[derive(Drop)]
struct Kept {
    nonce: [u8; 16],
    ad: Vec<u8>,
    text: Vec<u8>,
    tag: Vec<u8>,
    message: Option<Vec<u8>>,
}

impl Kept {
    // Opens the frame, with a bit of its tag turned where it is not to be right, and with a nonce too short where that is asked.
    fn open_by<M: Mode, C: Cipher, S: NonceSource>(
        &self,
        heap: Global,
        post: &mut Post<M, C, S>,
        right: bool,
        short: bool,
    ) -> Result<(Outcome<()>, Vec<u8>), AllocError> {
        let mut tag = self.tag.clone()?;
        if !right {
            if let Some(b) = tag.last_mut() {
                *b ^= 1;
            }
        }
        let mut nonce = self.nonce.to_vec(heap)?;
        if short {
            let _ = nonce.pop();
        }
        let mut out = vec![in heap; 0xee; self.text.len()]?;
        let outcome = post.open(
            nonce.as_slice(),
            self.ad.as_slice(),
            self.text.as_slice(),
            tag.as_slice(),
            out.as_mut_slice(),
        );
        Ok((outcome, out))
    }
}

/// The lengths of a call, and what they alone answer.
#[derive(Clone, Copy)]
struct Sizes {
    ad: usize,
    text: usize,
    out: usize,
    tag: usize,
    answer: Result<(), Refusal>,
}

/// A mode, the books, the generator and the last frame.
#[derive(Drop)]
pub struct Bench<M> {
    heap: Global,
    mode: M,
    pub books: Books,
    generator: Generator,
    kept: Kept,
}

// Sizes from two lengths, unlawful about once in eight times.
fn pick_sizes(generator: &mut Generator, ad: usize, text: usize) -> Sizes {
    let lawful = Sizes {
        ad,
        text,
        out: text,
        tag: 16,
        answer: Ok(()),
    };
    // a random choice
    match generator.below(32) {
        0 => Sizes {
            ad: 65_536,
            answer: Err(Refusal::DataLength),
            ..lawful
        },
        1 => Sizes {
            text: 65_536,
            out: 65_536,
            answer: Err(Refusal::TextLength),
            ..lawful
        },
        2 => Sizes {
            out: text.wrapping_add(1),
            answer: Err(Refusal::OutputLength),
            ..lawful
        },
        3 => Sizes {
            tag: 15,
            answer: Err(Refusal::TagLength),
            ..lawful
        },
        _ => lawful,
    }
}

impl<M: Mode + Copy> Bench<M> {
    pub(crate) fn new(
        heap: Global,
        mode: M,
        books: Books,
        generator: Generator,
    ) -> Result<Bench<M>, AllocError> {
        let kept = Kept {
            nonce: [0; 16],
            ad: vec![in heap]?,
            text: vec![in heap]?,
            tag: vec![in heap; 0; 16]?,
            message: None,
        };
        Ok(Bench {
            heap,
            mode,
            books,
            generator,
            kept,
        })
    }

    /// So many calls, or those until one fails.
    pub(crate) fn calls<C: Cipher, S: NonceSource>(
        &mut self,
        post: &mut Post<M, C, S>,
        calls: u64,
    ) -> Result<(), AllocError> {
        for _ in 0..calls {
            self.call(post)?;
        }
        Ok(())
    }

    // One call, of a kind that the generator picks.
    fn call<C: Cipher, S: NonceSource>(
        &mut self,
        post: &mut Post<M, C, S>,
    ) -> Result<(), AllocError> {
        // a random choice
        match self.generator.below(8) {
            0 => {
                self.books.compare(post.read_out());
                Ok(())
            }
            1..=3 => self.open(post),
            _ => self.seal(post),
        }
    }

    fn seal<C: Cipher, S: NonceSource>(
        &mut self,
        post: &mut Post<M, C, S>,
    ) -> Result<(), AllocError> {
        let ad_len = self.generator.below(50) as usize;
        let len = self.generator.below(90) as usize;
        let s = pick_sizes(&mut self.generator, ad_len, len);
        let ad = vec![in self.heap; self.generator.below(255); s.ad]?;
        let message = vec![in self.heap; self.generator.below(255); s.text]?;
        let mut out = vec![in self.heap; 0xee; s.out]?;
        let mut tag = vec![in self.heap; 0xee; s.tag]?;
        let outcome = post.seal(
            ad.as_slice(),
            message.as_slice(),
            out.as_mut_slice(),
            tag.as_mut_slice(),
        );
        let expected = Expected {
            sizes: s.answer,
            costs: self.mode.costs(s.ad, s.text),
        };
        self.books.seal(expected, outcome);
        match outcome.answer {
            Ok((high, low)) => {
                self.kept = Kept {
                    nonce: from_two_numbers(high, low),
                    ad,
                    text: out,
                    tag,
                    message: Some(message),
                };
            }
            Err(_) => self
                .books
                .expect(is_clear(out.as_slice()) && is_clear(tag.as_slice())),
        }
        Ok(())
    }

    fn open<C: Cipher, S: NonceSource>(
        &mut self,
        post: &mut Post<M, C, S>,
    ) -> Result<(), AllocError> {
        // before the first seal there is no right frame
        let right = self.kept.message.is_some() && self.generator.below(3) != 0;
        let short = self.generator.below(16) == 0;
        let (outcome, out) = self.kept.open_by(self.heap, post, right, short)?;
        let expected = Expected {
            sizes: if short {
                Err(Refusal::NonceLength)
            } else {
                Ok(())
            },
            costs: self.mode.costs(self.kept.ad.len(), self.kept.text.len()),
        };
        self.books.open(expected, right, outcome);
        self.books.expect(match outcome.answer {
            Ok(()) => self.kept.message == Some(out),
            Err(_) => is_clear(out.as_slice()),
        });
        Ok(())
    }
}
