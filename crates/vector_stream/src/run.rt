// The run of a program: the whole stream is read, its items are run one after the other, and the counts are printed.
ghost use Rattle.std.specs.Prelude.{◌≡◌, ◌≤◌, length, IfOk};

use crate::items::{Back, Item, Lent, Slices};
use crate::rows::{OWN, SCHEMA, THIRD, VALUES};
use crate::stream::{BYTES, Stream, Taken};
use crate::tally::Tally;
use crate::{report, rows, stream};
use std::io;

// The buffers of the slices.
#[derive(Drop)]
struct Buffers<'b> {
    schema: &'b mut [u64],
    own: &'b mut [u64],
    third: &'b mut [u64],
    values: &'b mut [u64],
}

// The calls of a program.
pub trait Calls {
    // Whether a call takes the slices that its row names.
    fn takes_slices(&self, call: u8) -> bool;

    // Takes the numbers of an item, makes its call on its slices and compares what comes back.
    fn run<'a>(&mut self, call: u8, item: Item<'a>, slices: &mut Slices<'_>) -> Back<'a>;
}

// Calls that leave no more of the stream to be read than their item had. They are calls of a program.
pub trait ForwardCalls {
    // Whether a call takes the slices that its row names.
    fn takes_slices(&self, call: u8) -> bool;

    // Takes the numbers of an item, makes its call on its slices and compares what comes back.
    fn run<'a>(&mut self, call: u8, item: Item<'a>, slices: &mut Slices<'_>) -> Back<'a>
        ensures { length result.item.told.rest.now ≤ length item.entry.told.rest.now };
}

impl<C: ForwardCalls> Calls for C {
    fn takes_slices(&self, call: u8) -> bool {
        ForwardCalls::takes_slices(self, call)
    }

    fn run<'a>(&mut self, call: u8, item: Item<'a>, slices: &mut Slices<'_>) -> Back<'a>
        ensures { length result.item.told.rest.now ≤ length item.entry.told.rest.now }
    {
        ForwardCalls::run(self, call, item, slices)
    }
}

// Reads the vector stream of these calls from standard input, runs its items on the library and compares what comes back. It
// prints the first ten mismatches and the counts, and answers how many items were run: no more than there is room for bytes,
// whatever number a broken stream tells.
pub fn run_stream<R: Input + Print, C: Calls>(rt: &R, calls: &mut C) -> io::Result<usize>
    ensures { IfOk result (λ n. n ≤ BYTES) }
{
    let mut bytes = [0u8; BYTES];
    let mut own = [0u64; stream::TABLE_WORDS];
    let mut third = [0u64; stream::TABLE_WORDS];
    read_all(rt, calls, &mut bytes, &mut own, &mut third)
}

// A step of its own, so that no proof looks into the zeros of the arrays.
fn read_all<R: Input + Print, C: Calls>(
    rt: &R,
    calls: &mut C,
    bytes: &mut [u8; BYTES],
    own: &mut [u64; stream::TABLE_WORDS],
    third: &mut [u64; stream::TABLE_WORDS],
) -> io::Result<usize>
    ensures { IfOk result (λ n. n ≤ BYTES) }
{
    let mut schema = [0u64; stream::SCHEMA_WORDS];
    let mut values = [0u64; stream::VALUES];
    let n = codec::read_full(&mut rt.reader(), &mut bytes[..])?;
    let from = Stream { rest: &bytes[..n] };
    let buffers = Buffers {
        schema: &mut schema,
        own,
        third,
        values: &mut values,
    };
    run_all(rt, calls, from, buffers)
}

// Runs every item; how many they are. An item has at least two bytes, so that a broken stream ends too.
fn run_all<P: Print, C: Calls>(
    rt: &P,
    calls: &mut C,
    from: Stream<'_>,
    mut buffers: Buffers<'_>,
) -> io::Result<usize>
    ensures { IfOk result (λ n. n ≤ length from.entry.rest.now) }
{
    let mut rows = [0u64; rows::WORDS];
    let mut tally = Tally::new();
    let mut s = from;
    s.load(
        &mut rows,
        &mut Taken {
            words: 0,
            digest: 0,
        },
    );
    let count = (s.number() as usize).min(from.rest.len());
    for _ in 0..count {
        let category = s.byte();
        let call = s.byte();
        let back = run_item(calls, call, &rows, s, &mut buffers, &mut tally.taken);
        s = back.item.told;
        tally.count(rt, category, call, back.answer, back.good)?;
    }
    report::report(rt, &rows, &tally)?;
    Ok(tally.items)
}

// Lends an item its slices, those that the call's row names, and runs it.
fn run_item<'a, C: Calls>(
    calls: &mut C,
    call: u8,
    rows: &[u64; rows::WORDS],
    from: Stream<'a>,
    buffers: &mut Buffers<'_>,
    taken: &mut Taken,
) -> Back<'a> {
    let row = rows::row(rows, call);
    let takes = calls.takes_slices(call);
    let mut s = from;
    let schema = lend(takes & (row[SCHEMA] != 0), &mut s, buffers.schema, taken);
    let own_from = s;
    let own = lend(takes & (row[OWN] != 0), &mut s, buffers.own, taken);
    let third_from = s;
    let third = lend(takes & (row[THIRD] != 0), &mut s, buffers.third, taken);
    let values = lend(takes & (row[VALUES] != 0), &mut s, buffers.values, taken);
    let item = Item {
        told: s,
        own: own_from,
        third: third_from,
    };
    let mut slices = Slices {
        schema,
        own,
        third,
        values,
    };
    calls.run(call, item, &mut slices)
}

// The next slice in its buffer. Of a slice that the call's row does not name nothing is read.
fn lend<'a: 'b, 'b>(
    present: bool,
    s: &mut Stream<'a>,
    buffer: &'b mut [u64],
    taken: &mut Taken,
) -> Lent<'b>
    ensures from { result.from.rest.now ≡ s.old.rest.now }
    ensures rest { length s.new.rest.now ≤ length s.old.rest.now }
{
    let from = *s;
    if present {
        s.load(buffer, taken);
    }
    Lent { buffer, from }
}
