// A row of the sheet, entry by entry, until an edge between two trees is found: the one function of the search that reads
// the sheet. The others take tables.
#![tactic(auto)]

ghost use Rattle.std.specs.Prelude.{◌≡◌};
ghost use Rattle.limits.specs.Limits.{routes};
ghost use Rattle.theory.specs.Search.Look.{scan_row};
ghost use Rattle.words.specs.Words.{numbers};
ghost use Rattle.tables.specs.Shapes.{tables_of};

use look::look;
use tables::Desk;
use words::numbers_of;

// The entries of row v, in order. Once an edge is found, the rest of the row does nothing.
pub fn scan_row(desk: &mut Desk, v: u32, row: &[u8])
    ensures { tables_of desk.new ≡ scan_row routes (tables_of desk.old) v (numbers row.now) }
{
    for w in numbers_of(row) {
        if desk.found.is_some() {
            return;
        }
        look(desk, v, w);
    }
}
