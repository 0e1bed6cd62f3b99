//! Bytes, 16-byte blocks, the 56-bit counter, padding and the map G: the parts that every mode is made of.
#![tactic(auto)]

ghost use Rattle.std.specs.Prelude.{◌≡◌, ◌+◌, ◌-◌, ◌*◌, ◌/◌, ◌%◌, ◌^◌, ◌<◌, ◌++◌, length, Decides};
ghost use Rattle.byte_blocks.specs.Bytes.{xors, g_byte, g_of};
ghost use Rattle.byte_blocks.specs.Counter.{stepped, counter_bytes};
ghost use Rattle.byte_blocks.specs.Block.{ended, padded, first_bytes, tweakey_head, tweakey_of, if_short, block_count, BlocksCut};

/// The counter's first value.
pub const FIRST_COUNTER: u64 = 1;

/// The counter, one step on. Bits above the 56th do not count.
pub fn step(c: u64) -> u64
    ensures { result ≡ stepped c }
{
    ((c << 1) & 0xff_ffff_ffff_ffff) ^ ((c >> 55) % 2 * 0x95)
}

/// The seven bytes of a counter, the lowest first.
pub fn counter_bytes(c: u64) -> [u8; 7]
    ensures { result ≡ counter_bytes c }
{
    let [c0, c1, c2, c3, c4, c5, c6, _] = c.to_le_bytes();
    [c0, c1, c2, c3, c4, c5, c6]
}

/// G on one byte.
#[tactic(auto, using(crate::proofs::Leaves::g_code))]
pub fn g(x: u8) -> u8
    ensures { result ≡ g_byte x }
{
    (x >> 1) | (((x >> 7) ^ (x & 1)) << 7)
}

/// G on each byte of a block.
pub fn g_block(s: &[u8; 16]) -> [u8; 16]
    ensures { result ≡ g_of s.now }
{
    // a loop, since an array's `map` takes fifteen times as long
    let mut r = *s;
    for x in r.iter_mut() {
        *x = g(*x);
    }
    r
}

/// Adds the bytes of `x` to those of `s`, as far as both go.
#[tactic(auto, using(crate::proofs::Leaves::xors_more, crate::proofs::Leaves::xors_all))]
pub fn xor_into(s: &mut [u8], x: &[u8])
    ensures { s.new ≡ xors s.old x.now }
{
    // by index: what is written through the items of a zip is not known afterwards
    for i in 0..s.len().min(x.len()) {
        s[i] ^= x[i];
    }
}

/// The first N bytes of a text as a block, with zeros where the text is shorter. A text of N bytes is that block.
#[tactic(auto, using(crate::proofs::Leaves::front_put))]
pub fn block_of<const N: usize>(text: &[u8]) -> [u8; N]
    ensures value { result ≡ first_bytes N text.now }
    ensures whole { length text.now ≡ N → result ≡ text.now }
{
    let mut block = [0; N];
    let n = text.len().min(N);
    block[..n].copy_from_slice(&text[..n]);
    block
}

/// The block that ends a text: what is left of it, at most 15 bytes, then zeros and a last byte.
// out of line, so that `pad` moves a whole block at once
#[inline(never)]
#[tactic(auto, using(crate::proofs::Leaves::end_put))]
pub fn end_block(rest: &[u8], last: u8) -> [u8; 16]
    ensures { result ≡ ended rest.now last }
{
    let mut block = block_of(rest);
    block[15] = last;
    block
}

/// A part of a text, of at most 16 bytes, as a whole block. Of a longer one the first 16 bytes are taken.
#[tactic(auto, using(crate::proofs::Leaves::pad_short, crate::proofs::Leaves::pad_whole))]
pub fn pad(part: &[u8]) -> [u8; 16]
    ensures { result ≡ padded part.now }
{
    match part.first_chunk() {
        Some(block) => *block,
        None => end_block(part, part.len() as u8),
    }
}

/// Three blocks, one after the other.
pub fn thirds(x: &[u8; 16], y: &[u8; 16], z: &[u8; 16]) -> [u8; 48]
    ensures { result ≡ x.now ++ (y.now ++ z.now) }
{
    block_of([*x, *y, *z].as_flattened())
}

// The first third of a tweakey: the counter, the domain byte and zeros.
fn head(domain: u8, c: u64) -> [u8; 16]
    ensures { result ≡ tweakey_head domain c }
{
    let [c0, c1, c2, c3, c4, c5, c6] = counter_bytes(c);
    [c0, c1, c2, c3, c4, c5, c6, domain, 0, 0, 0, 0, 0, 0, 0, 0]
}

/// The tweakey of one call under a key with a tweak, a domain byte and a counter.
#[tactic(auto, unfolding(crate::specs::Block::tweakey_of))]
pub fn tweakey(key: &[u8; 16], tweak: &[u8; 16], domain: u8, c: u64) -> [u8; 48]
    ensures { result ≡ tweakey_of key.now tweak.now domain c }
{
    thirds(&head(domain, c), tweak, key)
}

/// How many blocks a text of `len` bytes has; an empty text has one.
pub fn block_count(len: usize) -> usize
    ensures { result ≡ block_count len }
{
    len.saturating_sub(1) / 16 + 1
}

/// One of two domain bytes, by whether the last block of a text of `len` bytes is short or full.
pub fn if_short(len: usize, short: u8, full: u8) -> u8
    ensures { result ≡ if_short len short full }
{
    if len - len.saturating_sub(1) / 16 * 16 < 16 {
        short
    } else {
        full
    }
}

/// Whether two blocks are equal. It looks at every byte, whatever it saw before, which `==` does not promise.
pub fn equal(a: &[u8; 16], b: &[u8; 16]) -> bool
    ensures { Decides result (a.now ≡ b.now) }
{
    a.iter()
        .zip(b)
        .fold(0, |differences, (x, y)| differences | (x ^ y))
        == 0
}

/// Blocks are the text, cut. The theorem stands in the contract; the call does nothing.
pub fn blocks_are_the_text(text: &[u8])
    ensures { BlocksCut text.now }
{
    let _ = text;
}
