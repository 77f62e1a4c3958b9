// The rows of the calls, which the stream's first slice holds: the shape and the name of each.
ghost use Rattle.std.specs.Prelude.{◌≡◌, length};

use std::io;

const ROW: usize = 24;

// The words of all rows.
pub(crate) const WORDS: usize = ROW * 256;

const NAME: usize = 8;

// The words of a row that say which slices an item is lent.
pub(crate) const SCHEMA: usize = 0;

pub(crate) const OWN: usize = 1;

pub(crate) const THIRD: usize = 2;

pub(crate) const VALUES: usize = 3;

// The row of a call.
pub(crate) fn row(rows: &[u64; WORDS], call: u8) -> &[u64]
    ensures { length result.now ≡ 24 }
{
    let from = ROW * usize::from(call);
    &rows[from..from + ROW]
}

// The letters of a call's name, with zeros after it.
pub(crate) fn print_name<P: Print>(rt: &P, row: &[u64]) -> io::Result<()> {
    for letter in row.iter().skip(NAME) {
        if *letter != 0 {
            rt.write_all(&[(*letter % 256) as u8])?;
        }
    }
    Ok(())
}
