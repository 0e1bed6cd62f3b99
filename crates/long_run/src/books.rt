//! What the program itself reckons of a post.
use mode::{Costs, Outcome};
use post::Reading;
use refusals::Refusal;
use std::fmt;

/// The state that a post should have, how often each number was answered, and how often post and books differed.
#[derive(Drop)]
pub struct Books {
    reading: Reading,
    nonces: u64,
    readings: u64,
    answers: [u64; 16],
    differences: u64,
    // the second number of the nonce that came last
    last_count: Option<u64>,
}

/// What is known of a call before it is made: what its sizes alone answer, and its costs.
#[derive(Clone, Copy)]
pub struct Expected {
    pub sizes: Result<(), Refusal>,
    pub costs: Costs,
}

// The number that is told outside of an answer. The numbers stand here once more, so that the books do not lean on the library.
fn number_due(answer: Result<(), Refusal>) -> u8 {
    match answer {
        Ok(()) => 0,
        Err(Refusal::CountRange) => 1,
        Err(Refusal::SheetSize) => 2,
        Err(Refusal::SheetRepeats) => 3,
        Err(Refusal::KeyLength) => 4,
        Err(Refusal::AllowanceSize) => 5,
        Err(Refusal::DataLength) => 6,
        Err(Refusal::TextLength) => 7,
        Err(Refusal::OutputLength) => 8,
        Err(Refusal::TagLength) => 9,
        Err(Refusal::NonceLength) => 10,
        Err(Refusal::AllowanceSpent) => 11,
        Err(Refusal::NoNonce) => 12,
        Err(Refusal::WrongFrame) => 13,
        Err(Refusal::HashLength) => 14,
        Err(Refusal::DigestLength) => 15,
    }
}

// An outcome, written out for the same reason.
fn outcome_of(answer: Result<(), Refusal>, cost: u64) -> Outcome<()> {
    Outcome { answer, cost }
}

impl Books {
    pub(crate) fn new(allowance: u64, nonces: u64) -> Books {
        Books {
            reading: Reading {
                left: allowance,
                sealed: 0,
                opened: 0,
                wrong: 0,
            },
            nonces,
            readings: 0,
            answers: [0; 16],
            differences: 0,
            last_count: None,
        }
    }

    // An answer, against the one that is due.
    fn note<T>(&mut self, outcome: &Outcome<T>, due: Outcome<()>) {
        if let Some(n) = self.answers.get_mut(outcome.number() as usize) {
            *n = n.wrapping_add(1);
        }
        self.expect(outcome.number() == number_due(due.answer) && outcome.cost == due.cost);
        self.reading.left = self.reading.left.wrapping_sub(due.cost);
    }

    fn due_seal(&self, call: Expected) -> Outcome<()> {
        if call.sizes.is_err() {
            outcome_of(call.sizes, 0)
        } else if call.costs.seal > self.reading.left {
            outcome_of(Err(Refusal::AllowanceSpent), 0)
        } else if self.nonces == 0 {
            outcome_of(Err(Refusal::NoNonce), 0)
        } else {
            outcome_of(Ok(()), call.costs.seal)
        }
    }

    fn due_open(&self, call: Expected, right: bool) -> Outcome<()> {
        if call.sizes.is_err() {
            outcome_of(call.sizes, 0)
        } else if call.costs.right > self.reading.left {
            outcome_of(Err(Refusal::AllowanceSpent), 0)
        } else if right {
            outcome_of(Ok(()), call.costs.right)
        } else {
            outcome_of(Err(Refusal::WrongFrame), call.costs.wrong)
        }
    }

    /// A seal: what it should answer, and what it did.
    pub(crate) fn seal(&mut self, call: Expected, outcome: Outcome<(u64, u64)>) {
        let due = self.due_seal(call);
        self.note(&outcome, due);
        if due.answer.is_ok() {
            self.reading.sealed = self.reading.sealed.wrapping_add(1);
            self.nonces = self.nonces.wrapping_sub(1);
        }
        if let Ok((_, count)) = outcome.answer {
            // the second numbers of both kinds of source rise here, so that no nonce comes twice
            self.expect(self.last_count.is_none_or(|last| count > last));
            self.last_count = Some(count);
        }
    }

    /// An opening of a frame that is right or damaged.
    pub(crate) fn open(&mut self, call: Expected, right: bool, outcome: Outcome<()>) {
        let due = self.due_open(call, right);
        self.note(&outcome, due);
        match due.answer {
            Ok(()) => self.reading.opened = self.reading.opened.wrapping_add(1),
            Err(Refusal::WrongFrame) => self.reading.wrong = self.reading.wrong.wrapping_add(1),
            Err(_) => {}
        }
    }

    /// A making of a source or a post: what it should answer, and what it did.
    pub(crate) fn making(&mut self, due: Result<(), Refusal>, made: Result<(), Refusal>) {
        self.note(&outcome_of(made, 0), outcome_of(due, 0));
    }

    /// Something else that should hold of an answer, as zeros after a refusal.
    pub(crate) fn expect(&mut self, holds: bool) {
        if !holds {
            self.differences = self.differences.wrapping_add(1);
        }
    }

    /// A reading, against the books.
    pub(crate) fn compare(&mut self, reading: Reading) {
        self.readings = self.readings.wrapping_add(1);
        let same = reading == self.reading;
        self.expect(same);
    }
}

impl fmt::Display for Books {
    fn fmt<W: fmt::Write>(&self, f: &mut fmt::Formatter<W>) -> fmt::Result {
        let Books {
            reading,
            nonces,
            readings,
            answers,
            differences,
            ..
        } = self;
        let Reading {
            left,
            sealed,
            opened,
            wrong,
        } = reading;
        write!(
            f,
            "{left} left, {sealed} sealed, {opened} opened, {wrong} wrong, {nonces} nonces, {readings} readings, answers"
        )?;
        for (number, n) in answers.iter().enumerate() {
            if *n > 0 {
                write!(f, " {number}:{n}")?;
            }
        }
        write!(f, ", {differences} differences")
    }
}
