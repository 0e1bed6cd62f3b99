// Requests with their answers, served by a post in order.
ghost use Rattle.std.specs.Prelude.{◌≡◌, map};
ghost use Rattle.promise.specs.Answers.{Stepped, Run};
ghost use Rattle.post.specs.Post.{standing_of};
ghost use Rattle.side_by_side.specs.Turns.{FitsNothing, asked, answered, given, transcript, unserved};

use cipher::Cipher;
use mode::{Mode, Outcome};
use nonces::NonceSource;
use post::{Post, Reading};

/// A call of a post, with buffers of its own.
#[derive(Drop)]
pub enum Request {
    Seal {
        ad: Vec<u8>,
        message: Vec<u8>,
        out: Vec<u8>,
        tag: Vec<u8>,
    },
    Open {
        nonce: Vec<u8>,
        ad: Vec<u8>,
        text: Vec<u8>,
        tag: Vec<u8>,
        out: Vec<u8>,
    },
    ReadOut,
}

/// What a post answers.
#[derive(Clone, Copy)]
pub enum Answer {
    Sealed(Outcome<(u64, u64)>),
    Opened(Outcome<()>),
    Reading(Reading),
}

/// A request, and its answer once it was served.
#[derive(Drop)]
pub struct Turn {
    pub request: Request,
    pub answer: Option<Answer>,
}

impl Turn {
    /// A request that waits to be served.
    pub fn new(request: Request) -> Turn
        ensures waits { result ≡ unserved request }
        ensures unanswered { FitsNothing (answered result) }
    {
        Turn {
            request,
            answer: None,
        }
    }
}

/// Serves one turn: the call is made on the request's buffers, and its answer stands in the turn.
pub fn handle<M: Mode, C: Cipher, S: NonceSource>(post: &mut Post<M, C, S>, turn: &mut Turn)
    ensures step { Stepped M.scheme (standing_of C.answer C.count S.pending post.old) (asked turn.old) (answered turn.new) (standing_of C.answer C.count S.pending post.new) }
    ensures kept { given turn.new ≡ given turn.old }
    ensures mode { post.new.mode ≡ post.old.mode }
{
    let answer = match &mut turn.request {
        Request::Seal {
            ad,
            message,
            out,
            tag,
        } => Answer::Sealed(post.seal(
            ad.as_slice(),
            message.as_slice(),
            out.as_mut_slice(),
            tag.as_mut_slice(),
        )),
        Request::Open {
            nonce,
            ad,
            text,
            tag,
            out,
        } => Answer::Opened(post.open(
            nonce.as_slice(),
            ad.as_slice(),
            text.as_slice(),
            tag.as_slice(),
            out.as_mut_slice(),
        )),
        Request::ReadOut => Answer::Reading(post.read_out()),
    };
    turn.answer = Some(answer);
}

/// Serves every turn, in order.
pub fn serve<M: Mode, C: Cipher, S: NonceSource>(post: &mut Post<M, C, S>, turns: &mut [Turn])
    ensures served { Run M.scheme (standing_of C.answer C.count S.pending post.old) (transcript turns.old turns.new) (standing_of C.answer C.count S.pending post.new) }
    ensures kept { map given turns.new ≡ map given turns.old }
    ensures mode { post.new.mode ≡ post.old.mode }
{
    for turn in turns.iter_mut() {
        handle(post, turn);
    }
}
