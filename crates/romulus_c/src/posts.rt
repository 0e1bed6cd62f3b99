// The exported calls of a post that the host keeps.
ghost use Rattle.std.specs.Prelude.{◌≡◌, [], ◌∷◌};
ghost use Rattle.refusals.specs.Refusals.{first_no, after_asking};
ghost use Rattle.promise.specs.Calls.{Seal, Open};
ghost use Rattle.romulus_c.specs.Kept.{held as held_of, blank as blank_of, newly, all_questions, kept_questions, reply as reply_of, MakeTold, CallTold, ReadTold};
ghost use Rattle.romulus_c.specs.Promised.{EveryKeptRun, EveryTwoKeptRuns};

use crate::kept::{
    Letter, RomulusPost, RomulusPostAnswer, RomulusReading, ask, named, open_by, seal_by,
};
use byte_blocks::block_of;
use mode::{Outcome, clear};
use refusals::Refusal;
use romulus_m::RomulusM;
use romulus_n::RomulusN;
use romulus_t::RomulusT;

fn blank() -> RomulusPost
    ensures { result ≡ blank_of }
{
    RomulusPost::default()
}

// The first question on a making that is answered no.
fn ask_making(
    mode: u32,
    rounds: u32,
    key: &[u8],
    first: u64,
    amount: u64,
    allowance: u64,
) -> Result<(), Refusal>
    ensures { result ≡ after_asking (first_no (all_questions first amount (held_of mode rounds key.now) allowance)) }
{
    first.checked_add(amount).ok_or(Refusal::CountRange)?;
    let held = if named(mode, rounds).is_ok() {
        key
    } else {
        &[]
    };
    promise::ask_making(held, allowance)
}

/// Makes a post with a counting source. A refused making leaves zeros in the post's place.
#[unsafe(no_mangle)]
pub extern "C" fn romulus_c_post_make(
    post: &mut RomulusPost,
    mode: u32,
    rounds: u32,
    key: &[u8],
    prefix: u64,
    first: u64,
    amount: u64,
    allowance: u64,
) -> u32
    ensures { MakeTold (newly mode rounds key.now prefix first amount allowance) (first_no (all_questions first amount (held_of mode rounds key.now) allowance)) result post.new }
{
    *post = blank();
    if let Err(refusal) = ask_making(mode, rounds, key, first, amount, allowance) {
        return refusal.number() as u32;
    }
    *post = RomulusPost {
        mode,
        rounds,
        key: block_of(key),
        prefix,
        count: first,
        amount,
        left: allowance,
        ..blank()
    };
    0
}

/// Seals a message under the post's next nonce.
#[unsafe(no_mangle)]
pub extern "C" fn romulus_c_post_seal(
    post: &mut RomulusPost,
    ad: &[u8],
    message: &[u8],
    out: &mut [u8],
    tag: &mut [u8],
) -> RomulusPostAnswer
    ensures { CallTold post.old (Seal ad.now message.now out.old tag.old) (first_no (kept_questions post.old)) (reply_of result (out.new ∷ tag.new ∷ [])) post.new }
{
    // a mode is generic in the cipher, so that there is no `dyn Mode` to choose once
    match ask(post) {
        Ok((Letter::N, rounds)) => seal_by(RomulusN, rounds, post, ad, message, out, tag),
        Ok((Letter::M, rounds)) => seal_by(RomulusM, rounds, post, ad, message, out, tag),
        Ok((Letter::T, rounds)) => seal_by(RomulusT, rounds, post, ad, message, out, tag),
        Err(refusal) => {
            clear(out);
            clear(tag);
            Outcome::<()>::refused(refusal).into()
        }
    }
}

/// Opens a frame under the post's key.
#[unsafe(no_mangle)]
pub extern "C" fn romulus_c_post_open(
    post: &mut RomulusPost,
    nonce: &[u8],
    ad: &[u8],
    text: &[u8],
    tag: &[u8],
    out: &mut [u8],
) -> RomulusPostAnswer
    ensures { CallTold post.old (Open nonce.now ad.now text.now tag.now out.old) (first_no (kept_questions post.old)) (reply_of result (out.new ∷ [])) post.new }
{
    match ask(post) {
        Ok((Letter::N, rounds)) => open_by(RomulusN, rounds, post, nonce, ad, text, tag, out),
        Ok((Letter::M, rounds)) => open_by(RomulusM, rounds, post, nonce, ad, text, tag, out),
        Ok((Letter::T, rounds)) => open_by(RomulusT, rounds, post, nonce, ad, text, tag, out),
        Err(refusal) => {
            clear(out);
            Outcome::<()>::refused(refusal).into()
        }
    }
}

/// Tells what is left and what was done.
#[unsafe(no_mangle)]
pub extern "C" fn romulus_c_post_read(post: &RomulusPost) -> RomulusReading
    ensures { ReadTold post.now (first_no (kept_questions post.now)) result }
{
    match ask(post) {
        Err(refusal) => refusal.into(),
        Ok(_) => RomulusReading {
            number: 0,
            left: post.left,
            sealed: post.sealed,
            opened: post.opened,
            wrong: post.wrong,
        },
    }
}

/// Ends a post with its last reading. Whatever was kept, zeros are left in its place.
#[unsafe(no_mangle)]
pub extern "C" fn romulus_c_post_retire(post: &mut RomulusPost) -> RomulusReading
    ensures reading { ReadTold post.old (first_no (kept_questions post.old)) result }
    ensures ended { post.new ≡ blank_of }
{
    let reading = romulus_c_post_read(post);
    *post = blank();
    reading
}

/// Whatever a C host calls, a post that it makes and keeps holds to all that a post promises. The theorems stand in the contract; the call does nothing.
pub fn kept_posts_keep_promises()
    ensures promises { EveryKeptRun }
    ensures outside { EveryTwoKeptRuns }
{}
