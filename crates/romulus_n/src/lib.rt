//! Romulus-N over any cipher: nonce-based authenticated encryption.
#![tactic(auto)]

ghost use Rattle.std.specs.Prelude.{◌≡◌, length};
ghost use Rattle.byte_blocks.specs.Counter.{counter};
ghost use Rattle.byte_blocks.specs.Block.{blocks};
ghost use Rattle.cipher.specs.Cipher.{Called};
ghost use Rattle.passes.specs.Passes.{walked, left};
ghost use Rattle.romulus_n.specs.ModeN.{started, closed, n_cost, n_scheme};
ghost use Rattle.romulus_n.specs.Laws.{n_keeps};

use byte_blocks::{block_count, g_block, if_short};
use cipher::Cipher;
use mode::{Costs, Mode, settle};
use passes::{Direction, State};

// The domain byte of a pair of blocks of data.
const DATA_DOMAIN: u8 = 8;

// The domain bytes that end the data, where its last block is short and where it is full.
const SHORT_DATA_DOMAIN: u8 = 26;

const FULL_DATA_DOMAIN: u8 = 24;

// The domain byte between two parts of the text.
const TEXT_DOMAIN: u8 = 4;

// The domain bytes that end the text, where its last block is short and where it is full.
const SHORT_TEXT_DOMAIN: u8 = 21;

const FULL_TEXT_DOMAIN: u8 = 20;

/// Romulus-N. A nonce must not come twice under one key.
#[derive(Clone, Copy)]
pub struct RomulusN;

// Takes data, nonce and text in, the text in its own place and this way. Returns the tag that closes them.
fn pass<C: Cipher>(
    cipher: &mut C,
    key: &[u8; 16],
    nonce: &[u8; 16],
    ad: &[u8],
    way: Direction,
    text: &mut [u8],
) -> [u8; 16]
    ensures text { text.new ≡ walked (C.answer cipher.old) key.now nonce.now 4 way (counter 1) (started (C.answer cipher.old) key.now nonce.now ad.now) (blocks text.old) }
    ensures tag { result ≡ closed (C.answer cipher.old) key.now nonce.now (length text.old) (left (C.answer cipher.old) key.now nonce.now 4 way (counter 1) (started (C.answer cipher.old) key.now nonce.now ad.now) (blocks text.old)) }
    ensures called { Called (C.answer cipher.old) (C.count cipher.old) (n_cost (length ad.now) (length text.old)) (C.answer cipher.new) (C.count cipher.new) }
{
    let data_end = if_short(ad.len(), SHORT_DATA_DOMAIN, FULL_DATA_DOMAIN);
    let text_end = if_short(text.len(), SHORT_TEXT_DOMAIN, FULL_TEXT_DOMAIN);
    let mut state = State::new([0; 16]);
    state.absorb(cipher, key, DATA_DOMAIN, ad);
    state.encipher(cipher, key, nonce, data_end);
    state.walk(cipher, key, nonce, TEXT_DOMAIN, way, text);
    state.encipher(cipher, key, nonce, text_end);
    g_block(&state.block)
}

impl Mode for RomulusN {
    ghost scheme = { n_scheme };

    ghost keeps = { n_keeps };

    fn costs(&self, ad_len: usize, len: usize) -> Costs {
        let calls = (block_count(ad_len) / 2 + 1 + block_count(len)) as u64;
        Costs::alike(calls)
    }

    fn seal_in_place<C: Cipher>(
        &self,
        cipher: &mut C,
        key: &[u8; 16],
        nonce: &[u8; 16],
        ad: &[u8],
        text: &mut [u8],
    ) -> [u8; 16] {
        pass(cipher, key, nonce, ad, Direction::Sealing, text)
    }

    fn open_in_place<C: Cipher>(
        &self,
        cipher: &mut C,
        key: &[u8; 16],
        nonce: &[u8; 16],
        ad: &[u8],
        text: &mut [u8],
        tag: &[u8; 16],
    ) -> bool {
        let made = pass(cipher, key, nonce, ad, Direction::Opening, text);
        settle(&made, tag, text)
    }
}
