//! The line program: reads lines from standard input, and prints the answer to each.
#![tactic(auto)]

ghost use Rattle.std.specs.Prelude.{◌≤◌, length, IfOk, IfSome};

mod ahead;

use ahead::{Ahead, KEPT};
use lines::session::Session;
use std::io;
use std::io::{BufWriter, Stdin, Write};

// Reads the next line, without its newline. Of a line that is too long just enough is kept to tell. False: the input has ended.
fn read_line(input: &mut Stdin, ahead: &mut Ahead, line: &mut Vec<u8>) -> io::Result<bool>
    ensures { length line.new.items ≤ 8193 }
{
    line.clear();
    if !ahead.fill(input)? {
        return Ok(false);
    }
    for _ in 0..u64::MAX {
        if ahead.take(line)? || !ahead.fill(input)? {
            break;
        }
    }
    Ok(true)
}

// The next line, or none once the input has ended.
fn next_line<'a>(
    input: &mut Stdin,
    ahead: &mut Ahead,
    line: &'a mut Vec<u8>,
) -> io::Result<Option<&'a mut [u8]>>
    ensures { IfOk result (λ next. IfSome next (λ l. length l.now ≤ 8193)) }
{
    Ok(if read_line(input, ahead, line)? {
        Some(line.as_mut_slice())
    } else {
        None
    })
}

// Answers each line as it comes, until the input ends.
fn serve(rt: &HostRuntime) -> anyhow::Result<()> {
    let mut input = rt.stdin();
    let mut ahead = Ahead::new();
    let mut output = BufWriter::new(rt.alloc(), rt.stdout())?;
    let mut session = Session::new();
    let mut line = Vec::with_capacity(rt.alloc(), KEPT)?;
    // to the end of the input; a count, since every loop must be seen to end
    for _ in 0..u64::MAX {
        let Some(next) = next_line(&mut input, &mut ahead, &mut line)? else {
            break;
        };
        let answer = session.answer(next);
        output.write_all(answer.as_slice())?;
        output.write_all(b"\n")?;
        output.flush()?;
    }
    Ok(())
}

fn main(rt: HostRuntime) -> anyhow::Result<()> {
    serve(&rt)
}
