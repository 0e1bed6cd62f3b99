// Single calls of the cipher; two exports, since C has no generics.
ghost use Rattle.std.specs.Prelude.{◌≡◌};
ghost use Rattle.skinny.specs.RoundCount.{round_count};
ghost use Rattle.bench_edge.specs.Calls.{enciphered};

use cipher::{Cipher, Counted};
use skinny::{Rounds, Skinny};

fn encipher(rounds: Rounds, tweakey: &[u8], block: &mut [u8])
    ensures { block.new ≡ enciphered (round_count rounds) tweakey.now block.old }
{
    if let (Ok(tweakey), Ok(whole)) = (tweakey.try_into(), (&*block).try_into()) {
        // by the call that the modes make, which is also counted
        let mut cipher = Counted::new(Skinny::new(rounds));
        block.copy_from_slice(&cipher.encrypt(&tweakey, &whole));
    }
}

/// Enciphers a block in its place with 40 rounds. Where the tweakey has not 48 bytes or the block not 16, the block stays.
#[unsafe(no_mangle)]
pub extern "C" fn bench_edge_cipher40(tweakey: &[u8], block: &mut [u8])
    ensures { block.new ≡ enciphered 40 tweakey.now block.old }
{
    encipher(Rounds::Forty, tweakey, block);
}

/// Enciphers a block in its place with 56 rounds. Where the tweakey has not 48 bytes or the block not 16, the block stays.
#[unsafe(no_mangle)]
pub extern "C" fn bench_edge_cipher56(tweakey: &[u8], block: &mut [u8])
    ensures { block.new ≡ enciphered 56 tweakey.now block.old }
{
    encipher(Rounds::FiftySix, tweakey, block);
}
