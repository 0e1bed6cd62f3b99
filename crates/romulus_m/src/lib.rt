//! Romulus-M over any cipher: authenticated encryption that stands a repeated nonce.
#![tactic(auto)]

ghost use Rattle.std.specs.Prelude.{◌≡◌, ◌+◌, ◌/◌, map, length};
ghost use Rattle.byte_blocks.specs.Counter.{counter, advanced};
ghost use Rattle.byte_blocks.specs.Block.{padded, blocks, block_count};
ghost use Rattle.cipher.specs.Cipher.{Called};
ghost use Rattle.passes.specs.Passes.{walked};
ghost use Rattle.romulus_m.specs.ModeM.{if_even, tag_domain, gathered, seeded, tag_of, text_calls, m_scheme};
ghost use Rattle.romulus_m.specs.Joined.{joined};
ghost use Rattle.romulus_m.specs.Laws.{m_keeps};

use byte_blocks::{block_count, g_block, if_short};
use cipher::Cipher;
use mode::{Costs, Mode, settle};
use passes::{Direction, State};

// The domain byte of a pair of blocks that lies within the data.
const DATA_DOMAIN: u8 = 40;

// The domain byte of a pair with a block of the message in it.
const MESSAGE_DOMAIN: u8 = 44;

// The domain byte before a part of the text.
const TEXT_DOMAIN: u8 = 36;

// The domain byte of the tag, and its bits.
const TAG_DOMAIN: u8 = 48;

const SHORT_DATA: u8 = 2;

const SHORT_MESSAGE: u8 = 1;

const EVEN_DATA: u8 = 8;

const EVEN_MESSAGE: u8 = 4;

/// Romulus-M. Where a nonce comes twice, it shows only whether data and message are the same again.
#[derive(Clone, Copy)]
pub struct RomulusM;

// A number where a text of `len` bytes has evenly many blocks, else 0.
fn even(len: usize, w: u8) -> u8
    ensures { result ≡ if_even (block_count len) w }
{
    if block_count(len) % 2 == 0 { w } else { 0 }
}

// The domain of the call that makes the tag.
fn domain(ad_len: usize, len: usize) -> u8
    ensures { result ≡ tag_domain ad_len len }
{
    TAG_DOMAIN
        ^ if_short(ad_len, SHORT_DATA, 0)
        ^ if_short(len, SHORT_MESSAGE, 0)
        ^ even(ad_len, EVEN_DATA)
        ^ even(len, EVEN_MESSAGE)
}

// The message after a block of data that was left over: its first block is the tweak of the call that the block of data began.
fn join<C: Cipher>(state: &mut State, cipher: &mut C, key: &[u8; 16], message: &[u8])
    ensures block { state.new.block ≡ joined (C.answer cipher.old) key.now state.old.counter state.old.block (map padded (blocks message.now)) }
    ensures counter { state.new.counter ≡ advanced (block_count (length message.now)) state.old.counter }
    ensures called { Called (C.answer cipher.old) (C.count cipher.old) ((block_count (length message.now) + 1) / 2) (C.answer cipher.new) (C.count cipher.new) }
{
    let (first, rest) = message.split_at(message.len().min(16));
    state.tweak(cipher, key, MESSAGE_DOMAIN, first);
    if !rest.is_empty() {
        state.absorb(cipher, key, MESSAGE_DOMAIN, rest);
    }
}

// The state that data and message leave.
fn gather<C: Cipher>(cipher: &mut C, key: &[u8; 16], ad: &[u8], message: &[u8]) -> State
    ensures block { result.block ≡ gathered (C.answer cipher.old) key.now ad.now message.now }
    ensures counter { result.counter ≡ counter (block_count (length ad.now) + block_count (length message.now)) }
    ensures called { Called (C.answer cipher.old) (C.count cipher.old) ((block_count (length ad.now) + block_count (length message.now)) / 2) (C.answer cipher.new) (C.count cipher.new) }
{
    let mut state = State::new([0; 16]);
    state.absorb(cipher, key, DATA_DOMAIN, ad);
    if block_count(ad.len()) % 2 == 0 {
        state.absorb(cipher, key, MESSAGE_DOMAIN, message);
    } else {
        join(&mut state, cipher, key, message);
    }
    state
}

// The tag of data and message.
fn authenticate<C: Cipher>(
    cipher: &mut C,
    key: &[u8; 16],
    nonce: &[u8; 16],
    ad: &[u8],
    message: &[u8],
) -> [u8; 16]
    ensures tag { result ≡ tag_of (C.answer cipher.old) key.now nonce.now ad.now message.now }
    ensures called { Called (C.answer cipher.old) (C.count cipher.old) ((block_count (length ad.now) + block_count (length message.now)) / 2 + 1) (C.answer cipher.new) (C.count cipher.new) }
{
    let mut state = gather(cipher, key, ad, message);
    state.encipher(cipher, key, nonce, domain(ad.len(), message.len()));
    g_block(&state.block)
}

// The text under a tag, in its own place.
// out of line, so that a post's stack does not hold its block beside those of the other modes
#[inline(never)]
fn pass<C: Cipher>(
    cipher: &mut C,
    key: &[u8; 16],
    nonce: &[u8; 16],
    way: Direction,
    tag: &[u8; 16],
    text: &mut [u8],
)
    ensures text { text.new ≡ walked (C.answer cipher.old) key.now nonce.now 36 way (counter 1) (seeded (C.answer cipher.old) key.now nonce.now tag.now) (blocks text.old) }
    ensures called { Called (C.answer cipher.old) (C.count cipher.old) (text_calls (length text.old)) (C.answer cipher.new) (C.count cipher.new) }
{
    if !text.is_empty() {
        let mut state = State::new(*tag);
        state.encipher(cipher, key, nonce, TEXT_DOMAIN);
        state.walk(cipher, key, nonce, TEXT_DOMAIN, way, text);
    }
}

impl Mode for RomulusM {
    ghost scheme = { m_scheme };

    ghost keeps = { m_keeps };

    fn costs(&self, ad_len: usize, len: usize) -> Costs {
        let text = block_count(len);
        let text_calls = if len == 0 { 0 } else { text };
        let calls = ((block_count(ad_len) + text) / 2 + 1 + text_calls) as u64;
        Costs::alike(calls)
    }

    fn seal_in_place<C: Cipher>(
        &self,
        cipher: &mut C,
        key: &[u8; 16],
        nonce: &[u8; 16],
        ad: &[u8],
        text: &mut [u8],
    ) -> [u8; 16] {
        let tag = authenticate(cipher, key, nonce, ad, text);
        pass(cipher, key, nonce, Direction::Sealing, &tag, text);
        tag
    }

    fn open_in_place<C: Cipher>(
        &self,
        cipher: &mut C,
        key: &[u8; 16],
        nonce: &[u8; 16],
        ad: &[u8],
        text: &mut [u8],
        tag: &[u8; 16],
    ) -> bool {
        pass(cipher, key, nonce, Direction::Opening, tag, text);
        let made = authenticate(cipher, key, nonce, ad, text);
        settle(&made, tag, text)
    }
}
