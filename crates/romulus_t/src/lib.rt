//! Romulus-T over any cipher: authenticated encryption that re-keys from block to block, with a hash for the tag.
#![tactic(auto)]

ghost use Rattle.std.specs.Prelude.{◌≡◌, ◌*◌, ◌++◌, length};
ghost use Rattle.byte_blocks.specs.Bytes.{xors};
ghost use Rattle.byte_blocks.specs.Counter.{stepped, counter};
ghost use Rattle.byte_blocks.specs.Block.{zero_block};
ghost use Rattle.cipher.specs.Cipher.{Called, enciphered};
ghost use Rattle.romulus_h.specs.Hash.{digest_of, hash_calls};
ghost use Rattle.romulus_t.specs.ModeT.{message_blocks, padded_blocks, tag_input, ciphertext_of, tag_of, tag_cost, t_scheme};
ghost use Rattle.romulus_t.specs.Laws.{t_keeps};

use byte_blocks::{FIRST_COUNTER, counter_bytes, equal, step, xor_into};
use cipher::{Cipher, encipher};
use mode::{Costs, Mode, clear};
use romulus_h::{Digest, Hasher};

// The domain byte of a block of the key stream.
const STREAM_DOMAIN: u8 = 64;

// The domain byte of the next block key.
const NEXT_DOMAIN: u8 = 65;

// The domain byte of the first block key.
const FIRST_DOMAIN: u8 = 66;

// The domain byte of the tag.
const TAG_DOMAIN: u8 = 68;

// What the calls for the first block key and the tag have in the counter's place: zeros, and not its first value.
const NO_COUNTER: u64 = 0;

/// Romulus-T. A nonce must not come twice under one key.
#[derive(Clone, Copy)]
pub struct RomulusT;

// The cipher's answer for the nonce, under a block key and no tweak.
fn of_nonce<C: Cipher>(
    cipher: &mut C,
    block_key: &[u8; 16],
    domain: u8,
    counter: u64,
    nonce: &[u8; 16],
) -> [u8; 16]
    ensures value { result ≡ enciphered (C.answer cipher.old) block_key.now zero_block domain counter nonce.now }
    ensures called { Called (C.answer cipher.old) (C.count cipher.old) 1 (C.answer cipher.new) (C.count cipher.new) }
{
    let mut block = *nonce;
    encipher(cipher, block_key, &[0; 16], domain, counter, &mut block);
    block
}

// The key stream from one block on: that block's key, and its counter.
#[derive(Drop)]
struct Stream {
    block_key: [u8; 16],
    counter: u64,
}

impl Stream {
    // The stream from its first block on.
    fn start<C: Cipher>(cipher: &mut C, key: &[u8; 16], nonce: &[u8; 16]) -> Self
        ensures key { result.block_key ≡ enciphered (C.answer cipher.old) key.now zero_block 66 0 nonce.now }
        ensures counter { result.counter ≡ counter 0 }
        ensures called { Called (C.answer cipher.old) (C.count cipher.old) 1 (C.answer cipher.new) (C.count cipher.new) }
    {
        Stream {
            block_key: of_nonce(cipher, key, FIRST_DOMAIN, NO_COUNTER, nonce),
            counter: FIRST_COUNTER,
        }
    }

    // One part of a text, of at most 16 bytes, ⊕ the stream's block.
    fn cover<C: Cipher>(&self, cipher: &mut C, nonce: &[u8; 16], part: &mut [u8])
        ensures part { part.new ≡ xors part.old (enciphered (C.answer cipher.old) self.now.block_key zero_block 64 self.now.counter nonce.now) }
        ensures called { Called (C.answer cipher.old) (C.count cipher.old) 1 (C.answer cipher.new) (C.count cipher.new) }
    {
        let mask = of_nonce(cipher, &self.block_key, STREAM_DOMAIN, self.counter, nonce);
        xor_into(part, &mask);
    }

    // On to the next block.
    fn advance<C: Cipher>(&mut self, cipher: &mut C, nonce: &[u8; 16])
        ensures key { self.new.block_key ≡ enciphered (C.answer cipher.old) self.old.block_key zero_block 65 self.old.counter nonce.now }
        ensures counter { self.new.counter ≡ stepped self.old.counter }
        ensures called { Called (C.answer cipher.old) (C.count cipher.old) 1 (C.answer cipher.new) (C.count cipher.new) }
    {
        self.block_key = of_nonce(cipher, &self.block_key, NEXT_DOMAIN, self.counter, nonce);
        self.counter = step(self.counter);
    }
}

// A text ⊕ the key stream: the ciphertext of a message, and back the message of a ciphertext.
fn cover<C: Cipher>(cipher: &mut C, key: &[u8; 16], nonce: &[u8; 16], text: &mut [u8])
    ensures text { text.new ≡ ciphertext_of (C.answer cipher.old) key.now nonce.now text.old }
    ensures back { ciphertext_of (C.answer cipher.old) key.now nonce.now text.new ≡ text.old }
    ensures called { Called (C.answer cipher.old) (C.count cipher.old) (2 * message_blocks (length text.old)) (C.answer cipher.new) (C.count cipher.new) }
{
    if text.is_empty() {
        return;
    }
    let mut stream = Stream::start(cipher, key, nonce);
    // The parts by their places, since a proof knows nothing of the bytes that `chunks_mut` lent.
    let last = (text.len() - 1) / 16 * 16;
    for i in (0..last).step_by(16) {
        stream.cover(cipher, nonce, &mut text[i..i + 16]);
        stream.advance(cipher, nonce);
    }
    stream.cover(cipher, nonce, &mut text[last..]);
}

// The counter's value at m.
fn counter_at(m: usize) -> u64
    ensures { result ≡ counter m }
{
    // a loop, since a proof does not find what `fold` made
    let mut value = FIRST_COUNTER;
    for _i in 0..m {
        value = step(value);
    }
    value
}

// The digest that the tag is made of.
fn tag_digest<C: Cipher>(cipher: &mut C, nonce: &[u8; 16], ad: &[u8], text: &[u8]) -> Digest
    ensures digest { result.left ++ result.right ≡ digest_of (C.answer cipher.old) (tag_input nonce.now ad.now text.now) }
    ensures called { Called (C.answer cipher.old) (C.count cipher.old) (hash_calls (length (tag_input nonce.now ad.now text.now))) (C.answer cipher.new) (C.count cipher.new) }
{
    let mut hasher = Hasher::new();
    hasher.absorb_padded(cipher, ad);
    hasher.absorb_padded(cipher, text);
    hasher.absorb_block(cipher, nonce);
    hasher.finish(cipher, &counter_bytes(counter_at(text.len().div_ceil(16))))
}

// The tag of a ciphertext.
fn make_tag<C: Cipher>(
    cipher: &mut C,
    key: &[u8; 16],
    nonce: &[u8; 16],
    ad: &[u8],
    text: &[u8],
) -> [u8; 16]
    ensures tag { result ≡ tag_of (C.answer cipher.old) key.now nonce.now ad.now text.now }
    ensures called { Called (C.answer cipher.old) (C.count cipher.old) (tag_cost (length ad.now) (length text.now)) (C.answer cipher.new) (C.count cipher.new) }
{
    let Digest { left, right } = tag_digest(cipher, nonce, ad, text);
    let mut tag = left;
    encipher(cipher, key, &right, TAG_DOMAIN, NO_COUNTER, &mut tag);
    tag
}

// How many blocks a text has once it is padded; an empty one has none.
fn padded_blocks(len: usize) -> u64
    ensures { result ≡ padded_blocks len }
{
    match len {
        0 => 0,
        _ => len as u64 / 16 + 1,
    }
}

impl Mode for RomulusT {
    ghost scheme = { t_scheme };

    ghost keeps = { t_keeps };

    fn costs(&self, ad_len: usize, len: usize) -> Costs {
        let hashed = (padded_blocks(ad_len) + padded_blocks(len) + 1) / 2 + 1;
        let tag = 2 * hashed + 1;
        let whole = 2 * len.div_ceil(16) as u64 + tag;
        Costs {
            seal: whole,
            right: whole,
            wrong: tag,
        }
    }

    fn seal_in_place<C: Cipher>(
        &self,
        cipher: &mut C,
        key: &[u8; 16],
        nonce: &[u8; 16],
        ad: &[u8],
        text: &mut [u8],
    ) -> [u8; 16] {
        cover(cipher, key, nonce, text);
        make_tag(cipher, key, nonce, ad, text)
    }

    // The tag is judged over the ciphertext before a byte of the message is written.
    fn open_in_place<C: Cipher>(
        &self,
        cipher: &mut C,
        key: &[u8; 16],
        nonce: &[u8; 16],
        ad: &[u8],
        text: &mut [u8],
        tag: &[u8; 16],
    ) -> bool {
        let right = equal(&make_tag(cipher, key, nonce, ad, text), tag);
        if right {
            cover(cipher, key, nonce, text);
        } else {
            clear(text);
        }
        right
    }
}
