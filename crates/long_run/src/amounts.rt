//! How long the run is: numbers from the program's arguments, or those of the stored output.
use anyhow::anyhow;
use std::env;

/// How many calls each post gets, how many nonces a counting source has, and how many refused makings are tried.
#[derive(Clone, Copy)]
pub struct Amounts {
    pub calls: u64,
    pub nonces: u64,
    pub makings: u64,
}

// The number that an argument says, or the default where there is no argument.
fn number(what: &str, word: Option<String>, default: u64) -> anyhow::Result<u64> {
    match word {
        None => Ok(default),
        Some(text) => text.parse::<u64>().map_err(|_| anyhow!(
            "the number of {what} must be whole and below 2^64, and is {text}"
        )),
    }
}

impl Amounts {
    /// Reads up to three arguments: calls, nonces, makings.
    pub(crate) fn from_args(rt: &HostRuntime) -> anyhow::Result<Amounts> {
        let mut words = env::args(rt)?;
        let _ = words.next();
        let calls = number("calls", words.next(), 20_000)?;
        let nonces = number("nonces", words.next(), 4_096)?;
        let makings = number("makings", words.next(), 0)?;
        if words.next().is_some() {
            return Err(anyhow!("more than three arguments: give calls, nonces and makings"));
        }
        Ok(Amounts {
            calls,
            nonces,
            makings,
        })
    }
}
