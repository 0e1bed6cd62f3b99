//! A key line, held so that its bytes are zeros once reading it has ended.
ghost use Rattle.std.specs.Prelude.{◌≡◌};
ghost use Rattle.mode.specs.Mode.{zeros};
ghost use Rattle.lines.specs.KeyLines.{is_key_line};

/// Whether a line is a key line: it begins with 4b or 4B, whatever follows.
pub fn is_key_line(line: &[u8]) -> bool
    ensures { result ≡ is_key_line line.now }
{
    matches!(line, [b'4', b'b' | b'B', ..])
}

/// The characters of a key line. However reading them ends, they are zeros when the holder is let go.
pub struct KeyLine<'a>(&'a mut [u8]);

impl Drop for KeyLine<'_> {
    fn drop(self)
        ensures { self.exit.0.now ≡ zeros self.entry.0.now }
    {
        self.0.fill(0);
        let KeyLine(_) = self;
    }
}

impl<'a> KeyLine<'a> {
    /// Holds a line for clearing. Nobody else reads it until the holder is let go.
    pub fn hold(line: &'a mut [u8]) -> KeyLine<'a>
        ensures same { result.0.ghost_name ≡ line.entry.ghost_name }
        ensures value { result.0.now ≡ line.old }
    {
        KeyLine(line)
    }

    /// The characters held.
    pub fn characters(&self) -> &[u8]
        ensures { result.now ≡ self.now.0.now }
    {
        &self.0[..]
    }
}
