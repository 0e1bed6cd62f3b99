//! What was read ahead of the lines, in a buffer of the program's own, so that it is cleared once it is handed on.
ghost use Rattle.std.specs.Prelude.{◌≡◌, ◌<◌, ◌≤◌, true, [], length, drop, position, is_ok, IfOk, vec_capacity, ◌==◌, nat_lt};
ghost use Rattle.romulus.specs.Reading.{first_line, Filled, Taken};

use std::alloc::AllocError;
use std::io;
use std::io::{ErrorKind, Read};
use std::marker::Model;

/// How much is read at a time.
const ROOM: usize = 8192;

/// How much is kept of a line: one character more than it may have, enough to tell that it is too long.
pub const KEPT: usize = 8193;

/// Bytes read and not yet handed on. All else is zeros: what was handed on, and what lies behind.
#[derive(Drop)]
pub struct Ahead {
    // not a `Buffer` of `hex_lines`, which lets go of all that it holds at once
    bytes: [u8; ROOM],
    at: usize,
    end: usize,
}

// Clauses see the bytes that wait, and how much of the room was handed on: as all else is zeros, that is all that there is.
impl Model for Ahead {
    ghost use Rattle.romulus.specs.Reading.{Rest};

    ghost Value = { Rest };

    ghost use Rattle.romulus.specs.Waiting.{rest_of, Cleared};

    ghost view = { rest_of };

    ghost invariant = { Cleared };
}

// The place of the first newline.
fn find_newline(bytes: &[u8]) -> Option<usize>
    ensures { result ≡ position (λ c. c == 0x0a) bytes.now }
{
    bytes.iter().position(|byte| *byte == b'\n')
}

// How many bytes stand before the first newline; all of them where there is none.
fn before_newline(bytes: &[u8]) -> usize
    ensures place { result ≡ length (first_line bytes.now) }
    ensures bound { result ≤ length bytes.now }
{
    find_newline(bytes).unwrap_or(bytes.len())
}

impl Ahead {
    /// Nothing was read yet.
    pub fn new() -> Self
        ensures none { result.waiting ≡ [] }
        ensures start { result.handed_on ≡ 0 }
    {
        Ahead {
            bytes: [0; ROOM],
            at: 0,
            end: 0,
        }
    }

    /// Whether all that was read is handed on.
    pub fn is_empty(&self) -> bool
        ensures { result ≡ (length self.now.waiting == 0) }
    {
        self.at == self.end
    }

    /// Sees that something is waiting: once all is handed on, it reads on. False, as from `BufRead::has_data_left`: the input has ended.
    pub fn fill<R: Read>(&mut self, input: &mut R) -> io::Result<bool>
        ensures more { IfOk result (λ more. more ≡ nat_lt 0 (length self.new.waiting)) }
        ensures filled { Filled result self.new.waiting }
        ensures kept { 0 < length self.old.waiting → self.new ≡ self.old }
    {
        if !self.is_empty() {
            return Ok(true);
        }
        for _ in 0..u64::MAX {
            match input.read(&mut self.bytes) {
                // the contract of `read` says nothing of what lies behind the bytes read, nor of an error's leavings
                Ok(n) => {
                    self.bytes[n..].fill(0);
                    self.at = 0;
                    self.end = n;
                    return Ok(n > 0);
                }
                Err(e) => {
                    *self = Ahead::new();
                    if e.kind() != ErrorKind::Interrupted {
                        return Err(e);
                    }
                }
            }
        }
        Ok(false)
    }

    // What is waiting to be handed on.
    fn waiting(&self) -> &[u8]
        ensures value { result.now ≡ self.now.waiting }
        ensures bound { length result.now ≤ 8192 }
    {
        &self.bytes[self.at..self.end]
    }

    // Clears the first of what is waiting, as much as there is.
    fn clear(&mut self, n: usize)
        ensures { self.new.waiting ≡ drop n self.old.waiting }
    {
        let next = self.at + n.min(self.end - self.at);
        self.bytes[self.at..next].fill(0);
        self.at = next;
    }

    /// Hands on what is waiting to a line, up to the first newline, as far as a line is kept. Says whether the newline came, which is all that there is to say.
    /// A line with room for 8,193 characters never wants memory.
    pub fn take(&mut self, line: &mut Vec<u8>) -> Result<bool, AllocError>
        ensures taken { Taken self.old.waiting line.old.items result self.new.waiting line.new.items }
        ensures kept { length line.old.items ≤ 8193 → length line.new.items ≤ 8193 }
        ensures roomy { length line.old.items ≤ 8193 → 8193 ≤ vec_capacity line.old → is_ok result ≡ true }
        ensures room { vec_capacity line.old ≤ vec_capacity line.new }
    {
        let waiting = self.waiting();
        let n = before_newline(waiting);
        let kept = n.min(KEPT.saturating_sub(line.len()));
        let came = n < waiting.len();
        line.extend_from_slice(&waiting[..kept])?;
        self.clear(n + 1);
        Ok(came)
    }
}
