// The list program: a schema and a table on standard input, the list of the shown records on standard output.
#![tactic(auto)]

ghost use Rattle.std.specs.Prelude.{◌≡◌, true, IfSome, OnOk, ◌+◌, ◌<◌, ◌≤◌, length, take, drop};
ghost use Rattle.model.specs.Layout.{schema_words, header_words, capacity_of};
ghost use Rattle.model.specs.Calls.{marks_length};
ghost use Rattle.list.specs.Program.{most_bytes, is_whole, answer_text, list_text};
ghost use Rattle.list_text.specs.Placed.{Placed};
ghost use Rattle.std.specs.Io.KnownBytes.{Appends};

use std::io;
use std::io::{Read, Write};

// The largest N that the program takes.
const MOST_RECORDS: usize = 200;

const MOST_WORDS: usize = layout::SCHEMA_WORDS
    + layout::HEADER_WORDS
    + layout::RECORD_WORDS * MOST_RECORDS;

// One byte more than the longest input, so that a longer one is told apart.
const INPUT_BYTES: usize = codec::WORD_BYTES * MOST_WORDS + 1;

// A line has at most 50 characters for each field, its beginning counted in, and there are at most N + 2 lines.
const LINE_BYTES: usize = 50 * layout::FIELDS;

const TEXT_BYTES: usize = LINE_BYTES * (MOST_RECORDS + 2);

fn main(rt: HostRuntime) -> io::Result<()> {
    let mut input = [0u8; INPUT_BYTES];
    let mut words = [0u64; MOST_WORDS];
    let mut marks = [0u8; MOST_RECORDS];
    let mut out = [0u8; TEXT_BYTES];
    run(&rt, &mut input, &mut words, &mut marks, &mut out)
}

// A step of its own, so that no proof looks into the zeros of the arrays.
fn run<R: Input + Print>(
    rt: &R,
    input: &mut [u8; INPUT_BYTES],
    words: &mut [u64; MOST_WORDS],
    marks: &mut [u8; MOST_RECORDS],
    out: &mut [u8; TEXT_BYTES],
) -> io::Result<()> {
    let mut reader = rt.reader();
    let mut writer = io::writer(rt);
    run_read(&mut reader, &mut writer, input, words, marks, out)
}

// Reads the whole input and prints its text. Of a reader whose bytes are known all bytes count, however many they are: a longer
// input than the buffer holds is told apart from each that is whole.
fn run_read<R: Read, W: Write>(
    reader: &mut R,
    writer: &mut W,
    input: &mut [u8],
    words: &mut [u64; MOST_WORDS],
    marks: &mut [u8; MOST_RECORDS],
    out: &mut [u8; TEXT_BYTES],
) -> io::Result<()>
    ensures { most_bytes < length input.old → OnOk result (IfSome (R.remaining reader.old) (λ b. Appends (W.contents writer.old) (W.contents writer.new) (list_text b))) }
{
    let n = codec::read_full(reader, input)?;
    let k = respond(&input[0..n], words, marks, out);
    writer.write_all(&out[0..k])
}

// The text for an input, at the beginning of `out`, and its length.
fn respond(
    input: &[u8],
    words: &mut [u64; MOST_WORDS],
    marks: &mut [u8; MOST_RECORDS],
    out: &mut [u8; TEXT_BYTES],
) -> usize
    ensures { (result ≤ length out.new) × (take result out.new ≡ list_text input.now) }
{
    write(input, words, marks, out)
}

// Whether the input is a whole schema and then a whole table with N at most 200.
fn is_whole(input: &[u8]) -> bool
    ensures { result ≡ is_whole input.now }
{
    if input.len() % codec::WORD_BYTES != 0 {
        return false;
    }
    let words = input.len() / codec::WORD_BYTES;
    if words < layout::SCHEMA_WORDS + layout::HEADER_WORDS {
        return false;
    }
    let records = words - (layout::SCHEMA_WORDS + layout::HEADER_WORDS);
    (records % layout::RECORD_WORDS == 0) & (records <= layout::RECORD_WORDS * MOST_RECORDS)
}

// The same text, as far as `out` has room.
fn write(
    input: &[u8],
    words: &mut [u64; MOST_WORDS],
    marks: &mut [u8; MOST_RECORDS],
    out: &mut [u8],
) -> usize
    ensures { Placed out.old 0 (list_text input.now) result out.new }
{
    if !is_whole(input) {
        return list_text::refused(1, out);
    }
    let count = codec::load(input, words);
    split(&words[0..count], marks, out)
}

// Of the words of a whole input: the schema, the table, and marks of its capacity.
fn split(words: &[u64], marks: &mut [u8], out: &mut [u8]) -> usize
    requires { (schema_words + header_words ≤ length words.now) × (capacity_of (drop schema_words words.now) ≤ length marks.old) }
    ensures { Placed out.old 0 (answer_text (take schema_words words.now) (drop schema_words words.now)) result out.new }
{
    let table = &words[layout::SCHEMA_WORDS..];
    let n = layout::capacity(table);
    list(
        &words[0..layout::SCHEMA_WORDS],
        table,
        &mut marks[0..n],
        out,
    )
}

// The list of a table, or the refusal.
fn list(schema: &[u64], table: &[u64], marks: &mut [u8], out: &mut [u8]) -> usize
    requires { marks_length table.now marks.old ≡ true }
    ensures { Placed out.old 0 (answer_text schema.now table.now) result out.new }
{
    match list_shown::marks(schema, table, marks) {
        Ok(count) => list_text::shown(schema, table, marks, count, out),
        Err(refusal) => list_text::refused(u64::from(refusal), out),
    }
}
