//! A block cipher by its answers and its count, and the bench stand-in.
#![tactic(auto)]

ghost use Rattle.std.specs.Prelude.{◌≡◌, ℕ, ◌+◌, ◌%◌, ◌^◌, ◌<◌};
ghost use Rattle.cipher.specs.Cipher.{Answer, Sixteen, Called, enciphered, stand_in};
ghost use Rattle.std.proofs.Common.{rules};

use byte_blocks::{tweakey, xor_into};

/// A tweakable block cipher: one fixed 16-byte answer for each tweakey and block, and a count of its calls modulo 2^64.
pub trait Cipher {
    // What it answers, for each tweakey and block.
    ghost answer: { Self → Answer };

    // How often it was called, modulo 2^64.
    ghost count: { Self → ℕ };

    /// The answer for a block under a tweakey. It adds one to the count, and leaves all answers as they were.
    // Called stands in the contract of each function that calls a cipher: it relates two states of it, by another number each time,
    // so that no value could carry it.
    fn encrypt(&mut self, tweakey: &[u8; 48], block: &[u8; 16]) -> [u8; 16]
        ensures value { result ≡ answer self.old tweakey.now block.now }
        ensures called { Called (answer self.old) (count self.old) 1 (answer self.new) (count self.new) };

    // Every answer has 16 bytes.
    ghost sixteen: { (c : Self) → Sixteen (answer c) };

    ghost bounded: { (c : Self) → count c < 2 ^ 64 };
}

/// One call on the state, under a key with a tweak, a domain byte and a counter.
#[tactic(auto, unfolding(crate::specs::Cipher::enciphered))]
pub fn encipher<C: Cipher>(
    cipher: &mut C,
    key: &[u8; 16],
    tweak: &[u8; 16],
    domain: u8,
    c: u64,
    s: &mut [u8; 16],
)
    ensures state { s.new ≡ enciphered (C.answer cipher.old) key.now tweak.now domain c s.old }
    ensures called { Called (C.answer cipher.old) (C.count cipher.old) 1 (C.answer cipher.new) (C.count cipher.new) }
{
    *s = cipher.encrypt(&tweakey(key, tweak, domain, c), s);
}

/// A tweakable block cipher that keeps nothing: one fixed 16-byte answer for each tweakey and block.
pub trait BlockCipher {
    // What it answers, for each tweakey and block.
    ghost answer: { Self → Answer };

    /// The answer for a block under a tweakey.
    fn encrypt_block(&self, tweakey: &[u8; 48], block: &[u8; 16]) -> [u8; 16]
        ensures { result ≡ answer self.now tweakey.now block.now };

    // Every answer has 16 bytes.
    ghost sixteen: { (c : Self) → Sixteen (answer c) };
}

/// A block cipher with a count of its calls, modulo 2^64. It answers as the block cipher does.
#[derive(Drop)]
pub struct Counted<B> {
    pub cipher: B,
    calls: u64,
}

impl<B: BlockCipher> Counted<B> {
    /// A cipher that was never called.
    pub fn new(cipher: B) -> Self
        ensures cipher { result.cipher ≡ cipher }
        ensures answers { ⟦<Counted<B> as Cipher>⟧.answer result ≡ B.answer cipher }
        ensures fresh { ⟦<Counted<B> as Cipher>⟧.count result ≡ 0 }
    {
        Counted { cipher, calls: 0 }
    }

    /// How often it was called, modulo 2^64.
    pub fn calls(&self) -> u64
        ensures { result ≡ ⟦<Counted<B> as Cipher>⟧.count self.now }
    {
        let Counted { calls, .. } = self;
        *calls
    }
}

impl<B: BlockCipher> Cipher for Counted<B> {
    ghost answer = { λ c. B.answer c.cipher };

    ghost count = { λ c. c.calls % 2 ^ 64 };

    ghost sixteen = { λ c. B.sixteen c.cipher };

    ghost bounded = { Prim.search rules };

    fn encrypt(&mut self, tweakey: &[u8; 48], block: &[u8; 16]) -> [u8; 16] {
        self.calls = self.calls.wrapping_add(1);
        self.cipher.encrypt_block(tweakey, block)
    }
}

/// The bench stand-in: it answers block ⊕ TK1 ⊕ TK2 ⊕ TK3, so that a result can be worked out by hand. It protects nothing.
#[derive(Clone, Copy)]
pub struct StandIn;

impl BlockCipher for StandIn {
    ghost answer = { λ _. stand_in };

    ghost sixteen = { Prim.search rules };

    fn encrypt_block(&self, tweakey: &[u8; 48], block: &[u8; 16]) -> [u8; 16] {
        let mut answer = *block;
        xor_into(&mut answer, &tweakey[0..16]);
        xor_into(&mut answer, &tweakey[16..32]);
        xor_into(&mut answer, &tweakey[32..48]);
        answer
    }
}
