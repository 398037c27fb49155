// Hands inputs to the report, one after the other, and writes each text. The file `stdout` beside `src/` holds what is to
// be written; it comes from document 01 and was written by hand, not by a run of this program.
#![tactic(auto)]

ghost use Rattle.std.specs.Prelude.{OnOk};
ghost use Rattle.std.specs.Io.KnownBytes.{Appends};
ghost use Rattle.report.specs.Text.{text_of};

use report::{Text, put_report};
use std::io;
use std::io::{BufWriter, Write};

// Room for the longest input that is looked at, and one byte.
const INPUT: usize = 65537;

// Writes what the report says of an input.
#[tactic(auto, using(report::proofs::Room::reported))]
fn given<W: Write>(to: &mut W, input: &[u8]) -> io::Result<()>
    ensures { OnOk result (Appends (W.contents to.old) (W.contents to.new) (text_of input.now)) }
{
    let mut text = Text::new();
    put_report(&mut text, input);
    to.write_all(text.as_slice())
}

// Inputs that are no sheet.
fn refusals<W: Write>(to: &mut W) -> io::Result<()> {
    // 1: nothing at all
    given(to, b"")?;
    // 2: 513 routes, from 8 bytes on
    given(to, b"\x01\x02\0\0\0\0\0\0")?;
    // 2 with the largest number of four bytes
    given(to, b"\xff\xff\xff\xff\0\0\0\0")?;
    // 4: one route, whose neighbour is 4,294,967,295
    given(to, b"\x01\0\0\0\0\0\0\0\x01\0\0\0\xff\xff\xff\xff")?;
    // 5: one row [0,0]
    given(to, b"\x01\0\0\0\0\0\0\0\x02\0\0\0\0\0\0\0\0\0\0\0")?;
    // 6: rows [1], []
    given(to, b"\x02\0\0\0\0\0\0\0\x01\0\0\0\x01\0\0\0\x01\0\0\0")?;
    // 7: one row [0]
    given(to, b"\x01\0\0\0\0\0\0\0\x01\0\0\0\0\0\0\0")
}

// Small layouts.
fn layouts<W: Write>(to: &mut W) -> io::Result<()> {
    // no routes
    given(to, b"\0\0\0\0\0\0\0\0")?;
    // one lone route
    given(to, b"\x01\0\0\0\0\0\0\0\0\0\0\0")?;
    // two that are joined
    given(
        to,
        b"\x02\0\0\0\0\0\0\0\x01\0\0\0\x02\0\0\0\x01\0\0\0\0\0\0\0",
    )?;
    // a path of three: the middle is over
    given(
        to,
        b"\x03\0\0\0\0\0\0\0\x01\0\0\0\x03\0\0\0\x04\0\0\0\x01\0\0\0\0\0\0\0\x02\0\0\0\x01\0\0\0",
    )?;
    // the claw
    given(
        to,
        b"\x04\0\0\0\0\0\0\0\x03\0\0\0\x04\0\0\0\x05\0\0\0\x06\0\0\0\x01\0\0\0\x02\0\0\0\x03\0\0\0\0\0\0\0\0\0\0\0\0\0\0\0",
    )
}

// Zeros: no routes and far too many bytes, which is refusal 3; and one byte more, which is not looked at.
fn longest<W: Write>(to: &mut W) -> io::Result<()> {
    let input = [0u8; INPUT];
    given(to, &input[..65536])?;
    given(to, &input)
}

fn main(rt: HostRuntime) -> io::Result<()> {
    let mut out = BufWriter::new(rt.alloc(), io::writer(&rt))?;
    refusals(&mut out)?;
    layouts(&mut out)?;
    longest(&mut out)?;
    out.flush()
}
