//! A post: it seals under nonces of its own, and opens what was sealed under its key, within an allowance of cipher calls.
#![tactic(auto)]

ghost use Rattle.std.specs.Prelude.{◌+◌, ◌^◌, ◌≤◌};

use refusals::Refusal;

mod calls;

/// What a reading tells: the allowance left, and how many seals and openings were taken and how many frames were wrong.
#[derive(Clone, Copy, PartialEq, Eq, Debug)]
pub struct Reading {
    pub left: u64,
    pub sealed: u64,
    pub opened: u64,
    pub wrong: u64,
}

/// A mode, a cipher and a nonce source under one key, with what may still be spent and what has been done.
///
/// A post cannot be let go: it is ended by `retire`, which hands its parts back.
// no `impl Model`: clauses say how it stands, and also that its mode, cipher and source are the same, which such a view would hide
pub struct Post<M, C, S> {
    mode: M,
    cipher: C,
    source: S,
    key: [u8; 16],
    reading: Reading,
    // every call that is counted costs at least 1, so that no counter wraps
    ghost few: { reading.left + reading.sealed + reading.opened + reading.wrong ≤ 2 ^ 40 },
}

/// What a refused making hands back: the question that refused it, and all parts as they were.
#[derive(Drop)]
pub struct Unmade<M, C, S> {
    pub refusal: Refusal,
    pub mode: M,
    pub cipher: C,
    pub source: S,
}

/// What a retired post leaves: its last reading, and its parts.
#[derive(Drop)]
pub struct Retired<M, C, S> {
    pub reading: Reading,
    pub mode: M,
    pub cipher: C,
    pub source: S,
}
