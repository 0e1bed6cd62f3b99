//! Romulus-H over any cipher: the hash of a text, and a hasher that takes a text in part by part.
#![tactic(auto)]

ghost use Rattle.std.specs.Prelude.{◌≡◌, ◌*◌, ◌/◌, ◌<◌, ◌++◌, length, take, drop, IfErr};
ghost use Rattle.refusals.specs.Refusals.{first_no, after_asking};
ghost use Rattle.byte_blocks.specs.Bytes.{xors};
ghost use Rattle.byte_blocks.specs.Block.{ipad_star};
ghost use Rattle.cipher.specs.Cipher.{Called};
ghost use Rattle.romulus_h.specs.Hash.{marked, left_of, right_of, hash_questions, hash_place, hash_cost};
ghost use Rattle.romulus_h.specs.Hashing.{fresh, digest_after, calls_after, Absorbs};

use byte_blocks::{block_of, end_block, pad, thirds, xor_into};
use cipher::Cipher;
use refusals::Refusal;

/// A digest in its two halves, L and R.
#[derive(Clone, Copy)]
pub struct Digest {
    pub left: [u8; 16],
    pub right: [u8; 16],
}

impl Digest {
    // Takes in one block of 32 bytes, given as its halves.
    fn compress<C: Cipher>(&mut self, cipher: &mut C, first: &[u8; 16], second: &[u8; 16])
        ensures left { self.new.left ≡ left_of (C.answer cipher.old) self.old.left self.old.right (first.now ++ second.now) }
        ensures right { self.new.right ≡ right_of (C.answer cipher.old) self.old.left self.old.right (first.now ++ second.now) }
        ensures whole { length (first.now ++ second.now) ≡ 32 }
        ensures called { Called (C.answer cipher.old) (C.count cipher.old) 2 (C.answer cipher.new) (C.count cipher.new) }
    {
        let tweakey = thirds(&self.right, first, second);
        let right = fed_forward(cipher, &tweakey, &mark(&self.left, 1));
        self.left = fed_forward(cipher, &tweakey, &self.left);
        self.right = right;
    }

    /// The digest in one piece.
    pub fn bytes(self) -> [u8; 32]
        ensures { result ≡ self.left ++ self.right }
    {
        let Digest { left, right } = self;
        block_of([left, right].as_flattened())
    }
}

// A block whose first byte took ⊕ b.
fn mark(block: &[u8; 16], b: u8) -> [u8; 16]
    ensures { result ≡ marked b block.now }
{
    let mut r = *block;
    r[0] ^= b;
    r
}

// The cipher's answer for a block, ⊕ the block.
fn fed_forward<C: Cipher>(cipher: &mut C, tweakey: &[u8; 48], block: &[u8; 16]) -> [u8; 16]
    ensures value { result ≡ xors (C.answer cipher.old tweakey.now block.now) block.now }
    ensures called { Called (C.answer cipher.old) (C.count cipher.old) 1 (C.answer cipher.new) (C.count cipher.new) }
{
    let mut r = cipher.encrypt(tweakey, block);
    xor_into(&mut r, block);
    r
}

/// A hash under way: L and R, and half a block that waits for its other half.
#[derive(Drop)]
pub struct Hasher {
    chain: Digest,
    half: Option<[u8; 16]>,
}

impl Hasher {
    /// A hasher that has taken nothing in.
    pub fn new() -> Self
        ensures { result ≡ fresh }
    {
        Hasher {
            chain: Digest {
                left: [0; 16],
                right: [0; 16],
            },
            half: None,
        }
    }

    /// Takes in one block of 16 bytes.
    pub fn absorb_block<C: Cipher>(&mut self, cipher: &mut C, block: &[u8; 16])
        ensures { Absorbs (C.answer cipher.old) (C.count cipher.old) self.old block.now (C.answer cipher.new) (C.count cipher.new) self.new }
    {
        // `take` would make every block slower.
        match self.half {
            Some(half) => {
                self.chain.compress(cipher, &half, block);
                self.half = None;
            }
            None => self.half = Some(*block),
        }
    }

    // Takes in the whole blocks of 16 bytes of a text, and returns what is left of it.
    fn absorb_blocks<'a, C: Cipher>(&mut self, cipher: &mut C, text: &'a [u8]) -> &'a [u8]
        ensures absorbed { Absorbs (C.answer cipher.old) (C.count cipher.old) self.old (take (length text.now / 16 * 16) text.now) (C.answer cipher.new) (C.count cipher.new) self.new }
        ensures rest { result.now ≡ drop (length text.now / 16 * 16) text.now }
    {
        let (blocks, rest) = text.as_chunks::<16>();
        for block in blocks {
            self.absorb_block(cipher, block);
        }
        rest
    }

    /// Takes in a text, padded as Romulus-T pads data and ciphertext: to whole blocks of 16 bytes, and an empty one not at all.
    pub fn absorb_padded<C: Cipher>(&mut self, cipher: &mut C, text: &[u8])
        ensures { Absorbs (C.answer cipher.old) (C.count cipher.old) self.old (ipad_star text.now) (C.answer cipher.new) (C.count cipher.new) self.new }
    {
        if !text.is_empty() {
            let last = self.absorb_blocks(cipher, text);
            self.absorb_block(cipher, &pad(last));
        }
    }

    /// The digest where this text is the end.
    // in line, so that a caller's stack holds no second frame for it
    #[inline(always)]
    pub fn finish<C: Cipher>(mut self, cipher: &mut C, text: &[u8]) -> Digest
        ensures digest { result.left ++ result.right ≡ digest_after (C.answer cipher.old) self text.now }
        ensures called { Called (C.answer cipher.old) (C.count cipher.old) (calls_after self (length text.now)) (C.answer cipher.new) (C.count cipher.new) }
    {
        let rest = self.absorb_blocks(cipher, text);
        let len = rest.len() as u8;
        let mut chain = self.chain;
        chain.left = mark(&chain.left, 2);
        match self.half {
            Some(half) => chain.compress(cipher, &half, &end_block(rest, 16 + len)),
            None => chain.compress(cipher, &end_block(rest, 0), &end_block(&[], len)),
        }
        chain
    }
}

// The first question before a hash that is answered no.
fn ask(input: usize, place: usize) -> Result<(), Refusal>
    ensures { result ≡ after_asking (first_no (hash_questions input place)) }
{
    if input > 1_048_576 {
        Err(Refusal::HashLength)
    } else if place != 32 {
        Err(Refusal::DigestLength)
    } else {
        Ok(())
    }
}

/// Writes the digest of an input over a place of 32 bytes. A refusal leaves zeros there, and the cipher as it was.
pub fn hash<C: Cipher>(cipher: &mut C, input: &[u8], place: &mut [u8]) -> Result<(), Refusal>
    ensures answered { result ≡ after_asking (first_no (hash_questions (length input.now) (length place.old))) }
    ensures place { place.new ≡ hash_place (C.answer cipher.old) input.now place.old result }
    ensures called { Called (C.answer cipher.old) (C.count cipher.old) (hash_cost (length input.now) result) (C.answer cipher.new) (C.count cipher.new) }
    ensures kept { IfErr result (λ _. cipher.new ≡ cipher.old) }
{
    let asked = ask(input.len(), place.len());
    match asked {
        Ok(()) => place.copy_from_slice(&Hasher::new().finish(cipher, input).bytes()),
        Err(_) => place.fill(0),
    }
    asked
}
