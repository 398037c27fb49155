// The planner's program: reads one sheet from standard input and writes what `report` says of it. One byte more than is
// looked at is read, so that a longer input is noticed.
#![tactic(auto)]

ghost use Rattle.std.specs.Prelude.{◌≡◌, IfSome, IfOk, OnOk, take};
ghost use Rattle.std.specs.Io.KnownBytes.{Appends};
ghost use Rattle.report.specs.Text.{text_of};

use report::{Text, put_report};
use std::alloc::Global;
use std::io;
use std::io::{Read, Write};

// The most bytes that are read.
const BYTES: u64 = 65537;

// The bytes that are left to read, the first of them where there are more.
fn read_input<R: Read + Drop>(alloc: Global, from: R) -> io::Result<Vec<u8>>
    ensures { IfOk result (λ v. IfSome (R.remaining from) (λ xs. v.items ≡ take 65537 xs)) }
{
    let mut input = Vec::new(alloc);
    from.take(BYTES).read_to_end(&mut input)?;
    Ok(input)
}

// Writes what the report says of an input.
#[tactic(auto, using(report::proofs::Room::reported))]
fn write_report<W: Write>(input: &[u8], to: &mut W) -> io::Result<()>
    ensures { OnOk result (Appends (W.contents to.old) (W.contents to.new) (text_of input.now)) }
{
    let mut text = Text::new();
    put_report(&mut text, input);
    to.write_all(text.as_slice())
}

// Writes what the report says of the bytes that are left to read, all of them.
#[tactic(auto, using(crate::proofs::Input::text_read))]
fn write_plan<R: Read + Drop, W: Write>(alloc: Global, from: R, to: &mut W) -> io::Result<()>
    ensures { OnOk result (IfSome (R.remaining from)
        (λ xs. Appends (W.contents to.old) (W.contents to.new) (text_of xs))) }
{
    let input = read_input(alloc, from)?;
    write_report(&input, to)
}

fn main(rt: HostRuntime) -> io::Result<()> {
    write_plan(rt.alloc(), rt.reader(), &mut io::writer(&rt))
}
