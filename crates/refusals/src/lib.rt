//! Why a call is refused: one enum for the whole library, with the number of each case.
#![tactic(auto)]

ghost use Rattle.std.specs.Prelude.{◌≡◌};
ghost use Rattle.refusals.specs.Refusals.{number_of, answer_number};

/// The question that was answered no. Each case has the number that callers are told.
#[derive(Clone, Copy, PartialEq, Eq, Debug)]
pub enum Refusal {
    /// First + amount of a counting source is above 2^64 - 1.
    CountRange = 1,
    /// A sheet has an odd number of entries, or more than 8,192.
    SheetSize = 2,
    /// A nonce stands twice on a sheet.
    SheetRepeats = 3,
    /// The key has not 16 bytes.
    KeyLength = 4,
    /// The allowance is above 2^40.
    AllowanceSize = 5,
    /// The associated data has more than 65,535 bytes.
    DataLength = 6,
    /// The message or ciphertext has more than 65,535 bytes.
    TextLength = 7,
    /// The output place is not exactly as long as the text.
    OutputLength = 8,
    /// The tag or its place has not 16 bytes.
    TagLength = 9,
    /// The nonce that is handed in has not 16 bytes.
    NonceLength = 10,
    /// The allowance left does not hold the cost.
    AllowanceSpent = 11,
    /// No nonce is left.
    NoNonce = 12,
    /// No message seals to the frame.
    WrongFrame = 13,
    /// The input of the hash has more than 1,048,576 bytes.
    HashLength = 14,
    /// The digest's place has not 32 bytes.
    DigestLength = 15,
}

impl Refusal {
    /// The refusal's number.
    pub fn number(self) -> u8
        ensures { result ≡ number_of self }
    {
        self as u8
    }
}

/// The number that a call answers: the refusal's, or 0 where the call was taken.
pub fn answer_number<T>(answer: &Result<T, Refusal>) -> u8
    ensures { result ≡ answer_number answer.now }
{
    match answer {
        Ok(_) => 0,
        Err(refusal) => refusal.number(),
    }
}
