//! Why a line is refused: a fault for each layer that a line goes through, with its number, its layer letter and its place.
ghost use Rattle.std.specs.Prelude.{◌≡◌};
ghost use Rattle.hex_lines.specs.declared.fault.Fault.TheVariants.{Line, Frame, Mode};
ghost use Rattle.hex_lines.specs.Faults.{fault_number, fault_layer, fault_place, two_bytes, report_of};

use refusals::Refusal;

/// A line that does not spell bytes.
#[derive(Clone, Copy)]
pub enum LineFault {
    /// 16: the character at this place, counted from 0, is the first that is no hexadecimal digit.
    BadDigit(usize),
    /// 17: the digits are oddly many.
    OddDigits,
    /// 18: the line has more than 8,192 characters.
    LongLine,
}

/// Bytes that are no frame, or a frame that cannot be served.
#[derive(Clone, Copy)]
pub enum FrameFault {
    /// 19: the first byte is no letter of a kind, or there is none.
    UnknownLetter,
    /// 20: a frame of so many bytes does not fit its kind.
    FrameLength(usize),
    /// 21: no key is held.
    NoKey,
    /// 22: the byte names no cipher.
    UnknownCipher,
}

/// The fault of a line, by the layer that found it.
#[derive(Clone, Copy)]
pub enum Fault {
    Line(LineFault),
    Frame(FrameFault),
    Mode(Refusal),
}

// These three by hand, since contracts of the crates above read from `from_gives` which fault a `?` makes, and a derive says nothing of it.
impl From<LineFault> for Fault {
    ghost from_gives = { λ e r. r ≡ Line e };

    fn from(fault: LineFault) -> Fault {
        Fault::Line(fault)
    }
}

impl From<FrameFault> for Fault {
    ghost from_gives = { λ e r. r ≡ Frame e };

    fn from(fault: FrameFault) -> Fault {
        Fault::Frame(fault)
    }
}

impl From<Refusal> for Fault {
    ghost from_gives = { λ e r. r ≡ Mode e };

    fn from(refusal: Refusal) -> Fault {
        Fault::Mode(refusal)
    }
}

/// A number in two bytes, the highest first.
pub fn two_bytes(number: usize) -> [u8; 2]
    ensures { result ≡ two_bytes number }
{
    ((number % 0x10000) as u16).to_be_bytes()
}

impl Fault {
    /// The refusal's number. A match, since a case with a field has no number of its own.
    pub fn number(self) -> u8
        ensures { result ≡ fault_number self }
    {
        match self {
            Fault::Line(LineFault::BadDigit(_)) => 16,
            Fault::Line(LineFault::OddDigits) => 17,
            Fault::Line(LineFault::LongLine) => 18,
            Fault::Frame(FrameFault::UnknownLetter) => 19,
            Fault::Frame(FrameFault::FrameLength(_)) => 20,
            Fault::Frame(FrameFault::NoKey) => 21,
            Fault::Frame(FrameFault::UnknownCipher) => 22,
            Fault::Mode(refusal) => refusal.number(),
        }
    }

    /// The letter of the layer: L for the line, F for the frame, M for the mode.
    pub fn layer(self) -> u8
        ensures { result ≡ fault_layer self }
    {
        match self {
            Fault::Line(_) => b'L',
            Fault::Frame(_) => b'F',
            Fault::Mode(_) => b'M',
        }
    }

    /// The place: the first bad character's, or the length of a frame that does not fit; else 0.
    pub fn place(self) -> usize
        ensures { result ≡ fault_place self }
    {
        match self {
            Fault::Line(LineFault::BadDigit(place)) => place,
            Fault::Frame(FrameFault::FrameLength(len)) => len,
            _ => 0,
        }
    }

    /// The four bytes that tell of the fault: number, layer letter, and the place in two bytes, the highest first.
    pub fn report(self) -> [u8; 4]
        ensures { result ≡ report_of self }
    {
        let [high, low] = two_bytes(self.place());
        [self.number(), self.layer(), high, low]
    }
}
