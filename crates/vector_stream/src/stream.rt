// The stream's numbers and slices. Every function is total: past the end stand zeros. What is still to be read never grows.
ghost use Rattle.std.specs.Prelude.{◌≡◌, ◌+◌, ◌%◌, ◌≤◌, length, min, drop};
ghost use Rattle.vector_stream.specs.Stream.{nth, number_of, behind, digested};

// The bytes of a stream, and the words of a table, of a schema and of an insertion's values that the buffers hold. The longest
// tables of the stream are some records too long.
pub const BYTES: usize = 3200000;

pub const TABLE_WORDS: usize = layout::HEADER_WORDS
    + layout::RECORD_WORDS * (layout::MOST_RECORDS + 4);

pub const SCHEMA_WORDS: usize = 256;

pub const VALUES: usize = 64;

// 2^40 - 87.
pub const MODULUS: u64 = 1099511627689;

pub const FACTOR: u64 = 1000003;

// A word taken into a digest.
pub fn digest(sum: u64, word: u64) -> u64
    ensures { result ≡ digested sum word }
{
    (sum % MODULUS * FACTOR + word % MODULUS) % MODULUS
}

// The number and the digest of all words taken from slices.
#[derive(Clone, Copy, Default)]
pub struct Taken {
    pub words: u64,
    pub digest: u64,
}

impl Taken {
    fn add(&mut self, word: u64)
        ensures words { self.new.words ≡ self.old.words % 4294967296 + 1 }
        ensures sum { self.new.digest ≡ digested self.old.digest word }
    {
        self.words = self.words % 4294967296 + 1;
        self.digest = digest(self.digest, word);
    }
}

// What is still to be read of a stream.
#[derive(Clone, Copy)]
pub struct Stream<'a> {
    pub rest: &'a [u8],
}

impl<'a> Stream<'a> {
    // The next byte, 0 past the end.
    #[tactic(auto, unfolding(crate::specs::Stream::nth))]
    pub fn byte(&mut self) -> u8
        ensures value { result ≡ nth self.old.rest.now 0 }
        ensures rest { self.new.rest.now ≡ drop 1 self.old.rest.now }
    {
        let Some((first, rest)) = self.rest.split_first() else {
            return 0;
        };
        self.rest = rest;
        *first
    }

    // The next number. It has its most significant seven bits first; every byte but its last is 128 or more.
    pub fn number(&mut self) -> u64
        ensures value { result ≡ number_of self.old.rest.now }
        ensures behind { self.new.rest.now ≡ behind self.old.rest.now }
        ensures rest { length self.new.rest.now ≤ length self.old.rest.now }
    {
        let mut value: u64 = 0;
        while let Some((first, rest)) = self.rest.split_first() {
            self.rest = rest;
            value = value % 144115188075855872 * 128 + u64::from(*first % 128);
            if *first < 128 {
                break;
            }
        }
        value
    }

    // Takes the next slice into the buffer, as far as it has room; how many words they are.
    pub fn load(&mut self, buffer: &mut [u64], taken: &mut Taken) -> usize
        ensures count { result ≡ min (number_of self.old.rest.now) (length buffer.new) }
        ensures within { result ≤ length buffer.new }
        ensures rest { length self.new.rest.now ≤ length self.old.rest.now }
    {
        let n = (self.number() as usize).min(buffer.len());
        let mut words = Words {
            stream: *self,
            zeros: 0,
        };
        let mut all = *taken;
        for to in buffer[..n].iter_mut() {
            *to = words.next();
            all.add(*to);
        }
        *taken = all;
        *self = words.stream;
        n
    }

    // Whether the buffer begins with the next slice, as far as it has room.
    pub(crate) fn same(&mut self, buffer: &[u64]) -> bool
        ensures { length self.new.rest.now ≤ length self.old.rest.now }
    {
        let n = (self.number() as usize).min(buffer.len());
        let mut words = Words {
            stream: *self,
            zeros: 0,
        };
        let mut good = true;
        for word in &buffer[..n] {
            good &= words.next() == *word;
        }
        *self = words.stream;
        good
    }
}

// The words of a slice. A 0 is followed by the length of its run of zeros.
#[derive(Drop)]
struct Words<'a> {
    stream: Stream<'a>,
    zeros: u64,
}

impl<'a> Words<'a> {
    fn next(&mut self) -> u64
        ensures { length self.new.stream.rest.now ≤ length self.old.stream.rest.now }
    {
        if 0 < self.zeros {
            self.zeros -= 1;
            return 0;
        }
        let word = self.stream.number();
        if word == 0 {
            self.zeros = self.stream.number().saturating_sub(1);
        }
        word
    }
}
