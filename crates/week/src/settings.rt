//! The settings of a scanner, and the little text that a record holds: `trigger=250 beep=on baud=9600`.
use std::error::Error;
use std::fmt;
use std::str::FromStr;

/// What a workshop sets on a scanner.
#[derive(Clone, Copy)]
pub struct Settings {
    /// How long the trigger is held before a read, in milliseconds.
    pub trigger: u16,
    pub beep: bool,
    pub baud: u32,
}

impl fmt::Display for Settings {
    fn fmt<W: fmt::Write>(&self, f: &mut fmt::Formatter<W>) -> fmt::Result {
        let Settings { trigger, baud, .. } = self;
        let beep = if self.beep { "on" } else { "off" };
        write!(f, "trigger={trigger} beep={beep} baud={baud}")
    }
}

/// A text that is no record.
#[derive(Clone, Copy, Debug, PartialEq, Eq)]
pub struct NoSettings;

impl fmt::Display for NoSettings {
    fn fmt<W: fmt::Write>(&self, f: &mut fmt::Formatter<W>) -> fmt::Result {
        write!(f, "the record holds no settings")
    }
}

impl Error for NoSettings {}

impl FromStr for Settings {
    type Err = NoSettings;

    fn from_str(text: &str) -> Result<Settings, NoSettings> {
        let mut trigger = None;
        let mut beep = None;
        let mut baud = None;
        for field in text.split(' ') {
            if let Some((name, value)) = field.split_once('=') {
                match name {
                    "trigger" => trigger = value.parse::<u16>().ok(),
                    "beep" => beep = Some(value == "on"),
                    "baud" => baud = value.parse::<u32>().ok(),
                    _ => return Err(NoSettings),
                }
            }
        }
        Ok(Settings {
            trigger: trigger.ok_or(NoSettings)?,
            beep: beep.ok_or(NoSettings)?,
            baud: baud.ok_or(NoSettings)?,
        })
    }
}
