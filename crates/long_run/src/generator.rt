//! A small fixed generator of numbers, so that every run is the same.

/// Numbers by shifts and exclusive or.
#[derive(Clone, Copy)]
pub struct Generator {
    state: u64,
}

impl Generator {
    pub(crate) fn new(seed: u64) -> Generator {
        Generator {
            state: seed ^ 0x9e37_79b9_7f4a_7c15,
        }
    }

    /// The next number.
    pub(crate) fn next(&mut self) -> u64 {
        let mut x = self.state;
        x ^= x << 13;
        x ^= x >> 7;
        x ^= x << 17;
        self.state = x;
        x
    }

    /// A number from 0 to 255 below `n`, or 0.
    pub(crate) fn below(&mut self, n: u8) -> u8 {
        let x = (self.next() >> 20) % 256;
        (x as u8).checked_rem(n).unwrap_or(0)
    }
}
