//! The passes of Romulus-N and Romulus-M over a text.
#![tactic(auto)]

ghost use Rattle.std.specs.Prelude.{◌≡◌, ◌-◌, ◌/◌, map, length};
ghost use Rattle.byte_blocks.specs.Bytes.{xors, g_of};
ghost use Rattle.byte_blocks.specs.Counter.{stepped, advanced, counter};
ghost use Rattle.byte_blocks.specs.Block.{padded, blocks, block_count};
ghost use Rattle.cipher.specs.Cipher.{Called, enciphered};
ghost use Rattle.passes.specs.Passes.{absorbed, mixed, walked, left};

use byte_blocks::{FIRST_COUNTER, g_block, pad, step, xor_into};
use cipher::{Cipher, encipher};

/// Which way a text goes through the enciphering pass.
#[derive(Clone, Copy)]
pub enum Direction {
    /// The text is the message and becomes the ciphertext.
    Sealing,
    /// The text is the ciphertext and becomes the message.
    Opening,
}

/// What goes from call to call: a block, and the counter of the last block of text that was taken in.
#[derive(Clone, Copy)]
pub struct State {
    pub block: [u8; 16],
    pub counter: u64,
}

// Cipher, key and nonce stay parameters, as the trait Mode hands them in: of a cipher that a struct borrows, each contract
// would have to say as well that the borrow is still the same.
impl State {
    /// A block, before any text.
    pub fn new(block: [u8; 16]) -> Self
        ensures block { result.block ≡ block }
        ensures counter { result.counter ≡ counter 0 }
    {
        State {
            block,
            counter: FIRST_COUNTER,
        }
    }

    /// One call of the cipher on the block, with the counter as it stands.
    pub fn encipher<C: Cipher>(
        &mut self,
        cipher: &mut C,
        key: &[u8; 16],
        tweak: &[u8; 16],
        domain: u8,
    )
        ensures block { self.new.block ≡ enciphered (C.answer cipher.old) key.now tweak.now domain self.old.counter self.old.block }
        ensures counter { self.new.counter ≡ self.old.counter }
        ensures called { Called (C.answer cipher.old) (C.count cipher.old) 1 (C.answer cipher.new) (C.count cipher.new) }
    {
        encipher(cipher, key, tweak, domain, self.counter, &mut self.block);
    }

    // Takes in one block of a text: it is mixed in.
    fn add(&mut self, block: &[u8])
        ensures block { self.new.block ≡ xors self.old.block (padded block.now) }
        ensures counter { self.new.counter ≡ stepped self.old.counter }
    {
        xor_into(&mut self.block, &pad(block));
        self.counter = step(self.counter);
    }

    /// Takes in one block of a text: it is the tweak of a call.
    pub fn tweak<C: Cipher>(&mut self, cipher: &mut C, key: &[u8; 16], domain: u8, block: &[u8])
        ensures block { self.new.block ≡ enciphered (C.answer cipher.old) key.now (padded block.now) domain self.old.counter self.old.block }
        ensures counter { self.new.counter ≡ stepped self.old.counter }
        ensures called { Called (C.answer cipher.old) (C.count cipher.old) 1 (C.answer cipher.new) (C.count cipher.new) }
    {
        self.encipher(cipher, key, &pad(block), domain);
        self.counter = step(self.counter);
    }

    /// Takes in all blocks of a text, in pairs: the first is mixed in, the second is the tweak of a call.
    pub fn absorb<C: Cipher>(&mut self, cipher: &mut C, key: &[u8; 16], domain: u8, text: &[u8])
        ensures block { self.new.block ≡ absorbed (C.answer cipher.old) key.now domain (stepped self.old.counter) self.old.block (map padded (blocks text.now)) }
        ensures counter { self.new.counter ≡ advanced (block_count (length text.now)) self.old.counter }
        ensures called { Called (C.answer cipher.old) (C.count cipher.old) (block_count (length text.now) / 2) (C.answer cipher.new) (C.count cipher.new) }
    {
        // An empty text is one empty block.
        if text.is_empty() {
            self.add(text);
        }
        for pair in text.chunks(32) {
            let (first, second) = pair.split_at(pair.len().min(16));
            self.add(first);
            if !second.is_empty() {
                self.tweak(cipher, key, domain, second);
            }
        }
    }

    // Turns a part of the text into the other text's, and mixes the message's into the block.
    // Both orders stand in full: a closure for the direction would hide which of the two parts is the message's.
    fn mix(&mut self, way: Direction, part: &mut [u8])
        ensures block { self.new.block ≡ mixed way self.old.block part.old }
        ensures counter { self.new.counter ≡ stepped self.old.counter }
        ensures text { part.new ≡ xors part.old (g_of self.old.block) }
    {
        let stream = g_block(&self.block);
        match way {
            Direction::Sealing => {
                self.add(part);
                xor_into(part, &stream);
            }
            Direction::Opening => {
                xor_into(part, &stream);
                self.add(part);
            }
        }
    }

    /// Takes a text through the enciphering pass in its own place, with a call between each two parts. The counter begins anew.
    pub fn walk<C: Cipher>(
        &mut self,
        cipher: &mut C,
        key: &[u8; 16],
        nonce: &[u8; 16],
        domain: u8,
        way: Direction,
        text: &mut [u8],
    )
        ensures block { self.new.block ≡ left (C.answer cipher.old) key.now nonce.now domain way (counter 1) self.old.block (blocks text.old) }
        ensures text { text.new ≡ walked (C.answer cipher.old) key.now nonce.now domain way (counter 1) self.old.block (blocks text.old) }
        ensures counter { self.new.counter ≡ counter (block_count (length text.old)) }
        ensures called { Called (C.answer cipher.old) (C.count cipher.old) ((length text.old - 1) / 16) (C.answer cipher.new) (C.count cipher.new) }
    {
        self.counter = FIRST_COUNTER;
        // The parts by their places: of those that `chunks_mut` or a moving `&mut` lends, a proof knows afterwards only the length.
        let last = text.len().saturating_sub(1) / 16 * 16;
        for i in (0..last).step_by(16) {
            self.mix(way, &mut text[i..i + 16]);
            self.encipher(cipher, key, nonce, domain);
        }
        self.mix(way, &mut text[last..]);
    }
}
