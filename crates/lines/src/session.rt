//! A session: the key and the cipher held from line to line, and the answer to each line.
ghost use Rattle.std.specs.Prelude.{◌≡◌, []};
ghost use Rattle.lines.specs.Requests.{meaning, Small, mode_reply, Replied};
ghost use Rattle.lines.specs.KeyLines.{line_after};
ghost use Rattle.lines.specs.Services.{cipher_answer};
ghost use Rattle.lines.specs.Sessions.{Gives, after, written, Spelled, Answered};
ghost use Rattle.lines.specs.Laws.{at_first, Lawful, RunLaws};

use crate::frame::{CipherName, Request, read};
use crate::key_line::{KeyLine, is_key_line};
use crate::service::{FRAME, Reply, digest, open_frame, seal_frame};
use hex_lines::buffer::Buffer;
use hex_lines::fault::Fault;
use hex_lines::{decode, encode};
use refusals::Refusal;
use skinny::Rounds;

/// An answer line: `00`, and two digits for each byte of a reply.
pub type Answer = Buffer<8226>;

/// What a session holds from line to line: the key, once one was taken, and the cipher.
#[derive(Clone, Copy)]
pub struct Held {
    key: Option<[u8; 16]>,
    cipher: CipherName,
}

impl Held {
    // Does what a request asks for, and gives the result.
    fn serve(&mut self, request: Request<'_>) -> Result<Reply, Refusal>
        requires { Small (meaning request) }
        ensures gives { Gives (cipher_answer self.old.cipher) (meaning request.entry) (mode_reply result) }
        ensures after { self.new ≡ after self.old (meaning request.entry) }
    {
        let mut cipher = self.cipher.make();
        match request {
            Request::TakeKey(key) => {
                self.key = Some(key);
                Ok(Buffer::new())
            }
            Request::Choose(name) => {
                self.cipher = name;
                Ok(Buffer::new())
            }
            Request::Seal(variant, key, parts) => Ok(seal_frame(&mut cipher, variant, &key, parts)),
            Request::Open(variant, key, sealed) => open_frame(&mut cipher, variant, &key, sealed),
            Request::Hash(text) => Ok(digest(&mut cipher, text)),
        }
    }
}

// The answer line of a reply: 00 and the result in small digits, or the report of the fault.
fn write_answer(reply: Result<Reply, Fault>) -> Answer
    ensures text { result ≡ written reply }
    ensures back { Spelled reply }
{
    let mut text = Buffer::new();
    match reply {
        Ok(result) => {
            encode(&[0], &mut text);
            encode(result.as_slice(), &mut text);
        }
        Err(fault) => encode(&fault.report(), &mut text),
    }
    text
}

/// A session that answers lines. Between lines its frame is empty.
// no ghost field says that, since `reply` works on a session whose frame is held
#[derive(Drop)]
pub struct Session {
    held: Held,
    frame: Buffer<FRAME>,
}

impl Session {
    /// A session that holds no key, and Skinny with 40 rounds. Its answers depend on no line that it refuses.
    pub fn new() -> Self
        ensures fresh { result.held ≡ at_first }
        ensures runs { RunLaws result.held }
        ensures wiped { result.frame ≡ [] }
    {
        Session {
            held: Held {
                key: None,
                cipher: CipherName::Skinny(Rounds::Forty),
            },
            frame: Buffer::new(),
        }
    }

    // The reply to a line: hexadecimal digits, then a frame, then what the frame asks for.
    fn reply(&mut self, line: &[u8]) -> Result<Reply, Fault>
        ensures { Replied self.old.held line.now result self.new.held }
    {
        decode(line, &mut self.frame)?;
        let request = read(self.held.key, self.frame.as_slice())?;
        Ok(self.held.serve(request)?)
    }

    // The reply to a line that leaves no key behind: a key line is cleared, however reading it ends, and so is the frame that it spelled.
    fn reply_and_clear(&mut self, line: &mut [u8]) -> Result<Reply, Fault>
        ensures replied { Replied self.old.held line.old result self.new.held }
        ensures cleared { line.new ≡ line_after line.old }
        ensures wiped { self.new.frame ≡ [] }
    {
        let reply = if is_key_line(line) {
            let holder = KeyLine::hold(line);
            self.reply(holder.characters())
        } else {
            self.reply(line)
        };
        self.frame.clear();
        reply
    }

    /// Answers a line. A key line is zeros afterwards, and any other is as it was; the frame's bytes are cleared.
    pub fn answer(&mut self, line: &mut [u8]) -> Answer
        ensures answered { Answered self.old.held line.old result self.new.held line.new }
        ensures lawful { Lawful self.old.held line.old result self.new.held }
        ensures wiped { self.new.frame ≡ [] }
    {
        write_answer(self.reply_and_clear(line))
    }
}
