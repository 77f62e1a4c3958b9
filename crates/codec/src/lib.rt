// Bytes from a reader, and words from little-endian bytes.
#![tactic(auto)]

ghost use Rattle.std.specs.Prelude.{◌≡◌, ◌+◌, ◌*◌, ◌%◌, ◌<◌, ◌≤◌, IfOk, OnErr, length, take};
ghost use Rattle.std.specs.Io.KnownBytes.{Consumes, IsAtEnd};
ghost use Rattle.model.specs.Layout.{word_bytes};
ghost use Rattle.codec.specs.Bytes.{word_at, words_of};

use std::io;
use std::io::Read;

// The bytes of a word.
pub const WORD_BYTES: usize = 8;

// Reads until the buffer is full or the input ends; how many bytes stand at the buffer's beginning. Of a reader whose bytes are
// known these are the first, and all of them where the buffer has room left.
pub fn read_full<R: Read>(reader: &mut R, buf: &mut [u8]) -> io::Result<usize>
    ensures within { IfOk result (λ n. n ≤ length buf.new) }
    ensures bytes { IfOk result (λ n. Consumes (R.remaining reader.old) (R.remaining reader.new) (take n buf.new)) }
    ensures failed { OnErr result (length buf.new ≡ length buf.old) }
    ensures end { IfOk result (λ n. n < length buf.new → IsAtEnd (R.remaining reader.new)) }
{
    let mut done = 0;
    while done < buf.len() {
        let n = reader.read(&mut buf[done..])?;
        if n == 0 {
            return Ok(done);
        }
        done += n;
    }
    Ok(done)
}

// The word whose bytes begin at `at`.
fn word(b: &[u8], at: usize) -> u64
    requires { at + word_bytes ≤ length b.now }
    ensures { result ≡ word_at b.now at }
{
    u64::from_le_bytes([
        b[at],
        b[at + 1],
        b[at + 2],
        b[at + 3],
        b[at + 4],
        b[at + 5],
        b[at + 6],
        b[at + 7],
    ])
}

// Every word of the bytes.
fn decode(b: &[u8], w: &mut [u64])
    requires { length b.now ≡ word_bytes * length w.old }
    ensures { w.new ≡ words_of b.now }
{
    for i in 0..w.len() {
        w[i] = word(b, WORD_BYTES * i);
    }
}

// The words of the bytes, at the beginning of `w`, and how many they are.
pub fn load(b: &[u8], w: &mut [u64]) -> usize
    requires { (length b.now % word_bytes ≡ 0) × (length b.now ≤ word_bytes * length w.old) }
    ensures { (result ≤ length w.new) × (take result w.new ≡ words_of b.now) }
{
    let count = b.len() / WORD_BYTES;
    decode(b, &mut w[0..count]);
    count
}
