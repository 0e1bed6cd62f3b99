//! Every mode on every cipher, at each data length 0 to 49 and message length 0 to 50: sealed, opened, and opened damaged.
//! It prints totals and a digest over all frames, which an independent implementation is held to.
#![tactic(auto)]

mod case;
mod sweep;
mod totals;

use any_cipher::AnyCipher;
use case::Case;
use mode::Mode;
use romulus_m::RomulusM;
use romulus_n::RomulusN;
use romulus_t::RomulusT;
use skinny::Rounds;
use sweep::Sweep;

// One mode on each cipher.
fn on_all_ciphers<M: Mode + Copy>(
    rt: &HostRuntime,
    mode_name: &str,
    mode: M,
) -> anyhow::Result<()> {
    let ciphers = [
        ("40", AnyCipher::skinny(Rounds::Forty)),
        ("56", AnyCipher::skinny(Rounds::FiftySix)),
        ("stand-in", AnyCipher::stand_in()),
    ];
    for (cipher_name, cipher) in ciphers {
        let mut sweep = Sweep::new(rt.alloc(), mode, cipher);
        for ad in 0..50 {
            for len in 0..51 {
                sweep.run(&Case::new(rt.alloc(), ad, len)?)?;
            }
        }
        let totals = &sweep.totals;
        let digest = hex::encode(rt.alloc(), totals.digest())?;
        println!(rt; "{mode_name} {cipher_name}: {totals}, {digest}")?;
    }
    Ok(())
}

fn run(rt: &HostRuntime) -> anyhow::Result<()> {
    on_all_ciphers(rt, "N", RomulusN)?;
    on_all_ciphers(rt, "M", RomulusM)?;
    on_all_ciphers(rt, "T", RomulusT)
}

fn main(rt: HostRuntime) -> anyhow::Result<()> {
    run(&rt)
}
