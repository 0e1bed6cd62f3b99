//! Makings of sources and posts, each with one thing wrong, or lawful at the very limit.
use crate::books::Books;
use crate::generator::Generator;
use cipher::Counted;
use nonces::{Counting, Sheet};
use post::Post;
use refusals::Refusal;
use romulus_n::RomulusN;
use skinny::{Rounds, Skinny};
use std::alloc::{AllocError, Global};

// The limits stand here once more, so that the books do not lean on the library.
const MOST_ALLOWED: u64 = 1 << 40;

const MOST_ENTRIES: u64 = 8_192;

// A counting source whose last count is `past` beyond the limit.
fn count_past(generator: &mut Generator, past: u8) -> Result<(), Refusal> {
    let room = u64::from(generator.below(200));
    Counting::new(b"makings.", u64::MAX - room, room + u64::from(past)).map(|_| ())
}

// A post on one nonce. A post cannot be let go, so one that is made is retired.
fn make_post(key: &[u8], allowance: u64) -> Result<(), Refusal> {
    let source = Counting::new(b"makings.", 1, 1)?;
    let cipher = Counted::new(Skinny::new(Rounds::Forty));
    let post = Post::new(RomulusN, cipher, source, key, allowance).map_err(
        |unmade| unmade.refusal,
    )?;
    let _ = post.retire();
    Ok(())
}

// A post with a key of this length and this allowance.
fn post_with(
    heap: Global,
    key_len: usize,
    allowance: u64,
) -> Result<Result<(), Refusal>, AllocError> {
    let key = vec![in heap; 7; key_len]?;
    Ok(make_post(key.as_slice(), allowance))
}

// The entries of a sheet, so many, with each nonce once.
fn different(heap: Global, entries: u64) -> Result<Vec<u64>, AllocError> {
    (0..entries).collect(heap)
}

fn make_sheet(entries: &[u64]) -> Result<(), Refusal> {
    Sheet::new(entries).map(|_| ())
}

// A sheet of so many entries, with each nonce once.
fn sheet_of(heap: Global, entries: u64) -> Result<Result<(), Refusal>, AllocError> {
    Ok(make_sheet(different(heap, entries)?.as_slice()))
}

// A sheet whose last nonce stands on it already.
fn repeated(heap: Global, generator: &mut Generator) -> Result<Result<(), Refusal>, AllocError> {
    let last = generator.below(60);
    let mut entries = different(heap, 2 * u64::from(last) + 2)?;
    let first = 2 * u64::from(generator.below(last));
    entries.push(first)?;
    entries.push(first + 1)?;
    Ok(make_sheet(entries.as_slice()))
}

// A length that is not 16.
fn wrong_key_length(generator: &mut Generator) -> usize {
    let n = generator.below(40) as usize;
    if n < 16 { n } else { n + 1 }
}

/// One making, of a kind that the generator picks, told to the books with what it should answer.
pub(crate) fn try_making(
    heap: Global,
    generator: &mut Generator,
    books: &mut Books,
) -> Result<(), AllocError> {
    // a random choice
    let (due, made) = match generator.below(9) {
        0 => (Ok(()), count_past(generator, 0)),
        1 => (Err(Refusal::CountRange), count_past(generator, 1)),
        2 => {
            let pairs = u64::from(generator.below(100));
            (Err(Refusal::SheetSize), sheet_of(heap, 2 * pairs + 1)?)
        }
        3 => (Err(Refusal::SheetSize), sheet_of(heap, MOST_ENTRIES + 2)?),
        4 => {
            let pairs = u64::from(generator.below(30));
            (Ok(()), sheet_of(heap, 2 * pairs)?)
        }
        5 => (Err(Refusal::SheetRepeats), repeated(heap, generator)?),
        6 => {
            let key_len = wrong_key_length(generator);
            let allowance = MOST_ALLOWED + u64::from(generator.below(2));
            (
                Err(Refusal::KeyLength),
                post_with(heap, key_len, allowance)?,
            )
        }
        7 => {
            let allowance = MOST_ALLOWED + 1 + u64::from(generator.below(200));
            (Err(Refusal::AllowanceSize), post_with(heap, 16, allowance)?)
        }
        _ => (Ok(()), post_with(heap, 16, MOST_ALLOWED)?),
    };
    books.making(due, made);
    Ok(())
}
