// The exported direct calls. Each is one mode on one cipher, and stands by itself, since C has no generics.
ghost use Rattle.skinny.specs.Skinny.{skinny as skinny_of};
ghost use Rattle.romulus_m.specs.ModeM.{m_scheme};
ghost use Rattle.romulus_n.specs.ModeN.{n_scheme};
ghost use Rattle.romulus_t.specs.ModeT.{t_scheme};
ghost use Rattle.romulus_c.specs.Told.{SealTold, OpenTold, HashTold};

use crate::direct::{RomulusAnswer, digest_into, open, seal};
use romulus_m::RomulusM;
use romulus_n::RomulusN;
use romulus_t::RomulusT;
use skinny::Rounds;

/// Seals a message by Romulus-N on 40 rounds.
#[unsafe(no_mangle)]
pub extern "C" fn romulus_c_n40_seal(
    key: &[u8],
    nonce: &[u8],
    ad: &[u8],
    message: &[u8],
    out: &mut [u8],
    tag: &mut [u8],
) -> RomulusAnswer
    ensures { SealTold n_scheme (skinny_of 40) key.now nonce.now ad.now message.now out.old tag.old result out.new tag.new }
{
    seal(&RomulusN, Rounds::Forty, key, nonce, ad, message, out, tag)
}

/// Opens a frame by Romulus-N on 40 rounds.
#[unsafe(no_mangle)]
pub extern "C" fn romulus_c_n40_open(
    key: &[u8],
    nonce: &[u8],
    ad: &[u8],
    text: &[u8],
    tag: &[u8],
    out: &mut [u8],
) -> RomulusAnswer
    ensures { OpenTold n_scheme (skinny_of 40) key.now nonce.now ad.now text.now tag.now out.old result out.new }
{
    open(&RomulusN, Rounds::Forty, key, nonce, ad, text, tag, out)
}

/// Seals a message by Romulus-N on 56 rounds.
#[unsafe(no_mangle)]
pub extern "C" fn romulus_c_n56_seal(
    key: &[u8],
    nonce: &[u8],
    ad: &[u8],
    message: &[u8],
    out: &mut [u8],
    tag: &mut [u8],
) -> RomulusAnswer
    ensures { SealTold n_scheme (skinny_of 56) key.now nonce.now ad.now message.now out.old tag.old result out.new tag.new }
{
    seal(
        &RomulusN,
        Rounds::FiftySix,
        key,
        nonce,
        ad,
        message,
        out,
        tag,
    )
}

/// Opens a frame by Romulus-N on 56 rounds.
#[unsafe(no_mangle)]
pub extern "C" fn romulus_c_n56_open(
    key: &[u8],
    nonce: &[u8],
    ad: &[u8],
    text: &[u8],
    tag: &[u8],
    out: &mut [u8],
) -> RomulusAnswer
    ensures { OpenTold n_scheme (skinny_of 56) key.now nonce.now ad.now text.now tag.now out.old result out.new }
{
    open(&RomulusN, Rounds::FiftySix, key, nonce, ad, text, tag, out)
}

/// Seals a message by Romulus-M on 40 rounds.
#[unsafe(no_mangle)]
pub extern "C" fn romulus_c_m40_seal(
    key: &[u8],
    nonce: &[u8],
    ad: &[u8],
    message: &[u8],
    out: &mut [u8],
    tag: &mut [u8],
) -> RomulusAnswer
    ensures { SealTold m_scheme (skinny_of 40) key.now nonce.now ad.now message.now out.old tag.old result out.new tag.new }
{
    seal(&RomulusM, Rounds::Forty, key, nonce, ad, message, out, tag)
}

/// Opens a frame by Romulus-M on 40 rounds.
#[unsafe(no_mangle)]
pub extern "C" fn romulus_c_m40_open(
    key: &[u8],
    nonce: &[u8],
    ad: &[u8],
    text: &[u8],
    tag: &[u8],
    out: &mut [u8],
) -> RomulusAnswer
    ensures { OpenTold m_scheme (skinny_of 40) key.now nonce.now ad.now text.now tag.now out.old result out.new }
{
    open(&RomulusM, Rounds::Forty, key, nonce, ad, text, tag, out)
}

/// Seals a message by Romulus-M on 56 rounds.
#[unsafe(no_mangle)]
pub extern "C" fn romulus_c_m56_seal(
    key: &[u8],
    nonce: &[u8],
    ad: &[u8],
    message: &[u8],
    out: &mut [u8],
    tag: &mut [u8],
) -> RomulusAnswer
    ensures { SealTold m_scheme (skinny_of 56) key.now nonce.now ad.now message.now out.old tag.old result out.new tag.new }
{
    seal(
        &RomulusM,
        Rounds::FiftySix,
        key,
        nonce,
        ad,
        message,
        out,
        tag,
    )
}

/// Opens a frame by Romulus-M on 56 rounds.
#[unsafe(no_mangle)]
pub extern "C" fn romulus_c_m56_open(
    key: &[u8],
    nonce: &[u8],
    ad: &[u8],
    text: &[u8],
    tag: &[u8],
    out: &mut [u8],
) -> RomulusAnswer
    ensures { OpenTold m_scheme (skinny_of 56) key.now nonce.now ad.now text.now tag.now out.old result out.new }
{
    open(&RomulusM, Rounds::FiftySix, key, nonce, ad, text, tag, out)
}

/// Seals a message by Romulus-T on 40 rounds.
#[unsafe(no_mangle)]
pub extern "C" fn romulus_c_t40_seal(
    key: &[u8],
    nonce: &[u8],
    ad: &[u8],
    message: &[u8],
    out: &mut [u8],
    tag: &mut [u8],
) -> RomulusAnswer
    ensures { SealTold t_scheme (skinny_of 40) key.now nonce.now ad.now message.now out.old tag.old result out.new tag.new }
{
    seal(&RomulusT, Rounds::Forty, key, nonce, ad, message, out, tag)
}

/// Opens a frame by Romulus-T on 40 rounds.
#[unsafe(no_mangle)]
pub extern "C" fn romulus_c_t40_open(
    key: &[u8],
    nonce: &[u8],
    ad: &[u8],
    text: &[u8],
    tag: &[u8],
    out: &mut [u8],
) -> RomulusAnswer
    ensures { OpenTold t_scheme (skinny_of 40) key.now nonce.now ad.now text.now tag.now out.old result out.new }
{
    open(&RomulusT, Rounds::Forty, key, nonce, ad, text, tag, out)
}

/// Seals a message by Romulus-T on 56 rounds.
#[unsafe(no_mangle)]
pub extern "C" fn romulus_c_t56_seal(
    key: &[u8],
    nonce: &[u8],
    ad: &[u8],
    message: &[u8],
    out: &mut [u8],
    tag: &mut [u8],
) -> RomulusAnswer
    ensures { SealTold t_scheme (skinny_of 56) key.now nonce.now ad.now message.now out.old tag.old result out.new tag.new }
{
    seal(
        &RomulusT,
        Rounds::FiftySix,
        key,
        nonce,
        ad,
        message,
        out,
        tag,
    )
}

/// Opens a frame by Romulus-T on 56 rounds.
#[unsafe(no_mangle)]
pub extern "C" fn romulus_c_t56_open(
    key: &[u8],
    nonce: &[u8],
    ad: &[u8],
    text: &[u8],
    tag: &[u8],
    out: &mut [u8],
) -> RomulusAnswer
    ensures { OpenTold t_scheme (skinny_of 56) key.now nonce.now ad.now text.now tag.now out.old result out.new }
{
    open(&RomulusT, Rounds::FiftySix, key, nonce, ad, text, tag, out)
}

/// Hashes an input by Romulus-H on 40 rounds, and answers 0 or the refusal's number.
#[unsafe(no_mangle)]
pub extern "C" fn romulus_c_h40_hash(input: &[u8], digest: &mut [u8]) -> u32
    ensures { HashTold (skinny_of 40) input.now digest.old result digest.new }
{
    digest_into(Rounds::Forty, input, digest)
}

/// Hashes an input by Romulus-H on 56 rounds, and answers 0 or the refusal's number.
#[unsafe(no_mangle)]
pub extern "C" fn romulus_c_h56_hash(input: &[u8], digest: &mut [u8]) -> u32
    ensures { HashTold (skinny_of 56) input.now digest.old result digest.new }
{
    digest_into(Rounds::FiftySix, input, digest)
}
