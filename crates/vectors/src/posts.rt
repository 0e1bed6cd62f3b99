//! Cases of posts: allowances and nonces that just hold and just do not.
use cipher::{Counted, StandIn};
use mode::Mode;
use nonces::Counting;
use post::Post;
use refusals::Refusal;

const KEY: [u8; 16] = [0; 16];

fn post_of<M: Mode + Drop>(
    mode: M,
    allowance: u64,
    nonces: u64,
) -> Result<Post<M, Counted<StandIn>, Counting>, Refusal> {
    let source = Counting::new(b"cases 01", 0, nonces)?;
    let cipher = Counted::new(StandIn);
    Post::new(mode, cipher, source, &KEY, allowance).map_err(|unmade| unmade.refusal)
}

/// The numbers, as they are told outside, that two seals of empty data and message answer, at an allowance and a number of nonces.
pub(crate) fn two_empty_seals<M: Mode + Drop>(
    mode: M,
    allowance: u64,
    nonces: u64,
) -> Result<[u8; 2], Refusal> {
    let mut post = post_of(mode, allowance, nonces)?;
    let mut tag = [0; 16];
    let one = post.seal(&[], &[], &mut [], &mut tag);
    let two = post.seal(&[], &[], &mut [], &mut tag);
    let _ = post.retire();
    Ok([one.number(), two.number()])
}

/// The number that an opening of a wrong frame with 16 bytes of text answers, and what it leaves of an allowance of 100.
pub(crate) fn after_wrong<M: Mode + Drop>(mode: M) -> Result<(u8, u64), Refusal> {
    let mut post = post_of(mode, 100, 1)?;
    let mut out = [7; 16];
    let opened = post.open(&[0; 16], &[], &[1; 16], &[2; 16], &mut out);
    let retired = post.retire();
    Ok((opened.number(), retired.reading.left))
}
