// What the programs of the tests write: words, and numbers in decimal. Each function writes to what it is lent, and a
// program lends its standard output; where the bytes that a writer holds are known, they grow by just these.
#![tactic(auto)]

ghost use Rattle.std.specs.Prelude.{◌++◌, ◌∷◌, [], OnOk};
ghost use Rattle.std.specs.Fmt.{decimal};
ghost use Rattle.std.specs.Io.KnownBytes.{Appends};

use std::io;
use std::io::Write;

// Writes words as they are.
pub fn write<W: Write>(out: &mut W, words: &[u8]) -> io::Result<()>
    ensures { OnOk result (Appends (W.contents out.old) (W.contents out.new) words.now) }
{
    out.write_all(words)
}

// Writes a number with its name before it.
pub fn field<W: Write>(out: &mut W, name: &[u8], x: u64) -> io::Result<()>
    ensures { OnOk result (Appends (W.contents out.old) (W.contents out.new) (name.now ++ decimal x)) }
{
    write(out, name)?;
    write!(out, "{x}")
}

// Writes a number with a space before it.
pub fn number<W: Write>(out: &mut W, x: u64) -> io::Result<()>
    ensures { OnOk result (Appends (W.contents out.old) (W.contents out.new) (32 ∷ decimal x)) }
{
    field(out, b" ", x)
}
