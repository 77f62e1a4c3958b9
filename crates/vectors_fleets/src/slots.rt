// A fleet: tables, a schema and marks that stay from item to item, and the delta of its edits.
use vector_stream::stream;

// Slots 0 to 4 are tables, slots 5 to 7 copies.
pub const SLOTS: usize = 8;

// A slot holds a table of at most so many records.
pub const MOST_MARKS: usize = 24;

pub const SLOT_WORDS: usize = layout::HEADER_WORDS + layout::RECORD_WORDS * MOST_MARKS;

// The first of a buffer's items, as many as are held.
#[derive(Clone, Copy)]
pub struct Held<T, const N: usize> {
    pub items: [T; N],
    pub length: usize,
}

impl<T: Copy, const N: usize> Held<T, N> {
    pub fn all(&self) -> &[T] {
        let n = self.length.min(N);
        &self.items[..n]
    }

    pub fn all_mut(&mut self) -> &mut [T] {
        let n = self.length.min(N);
        &mut self.items[..n]
    }

    // Holds these items, as far as there is room.
    pub fn put(&mut self, from: &[T]) {
        self.length = from.len();
        for (to, x) in self.items.iter_mut().zip(from) {
            *to = *x;
        }
    }

    // Puts what is held at the beginning of a buffer.
    pub fn fetch(&self, buffer: &mut [T]) {
        for (to, x) in buffer.iter_mut().zip(self.all()) {
            *to = *x;
        }
    }
}

pub type Slot = Held<u64, SLOT_WORDS>;

#[derive(Drop)]
pub struct Fleet {
    pub slots: [Slot; SLOTS],
    pub schema: Held<u64, { stream::SCHEMA_WORDS }>,
    pub marks: Held<u8, MOST_MARKS>,
    pub delta: [u64; layout::DELTA_WORDS],
}

impl Fleet {
    // All words zero, and nothing held.
    pub fn new() -> Fleet {
        Fleet {
            slots: [Held {
                items: [0; SLOT_WORDS],
                length: 0,
            }; SLOTS],
            schema: Held {
                items: [0; stream::SCHEMA_WORDS],
                length: 0,
            },
            marks: Held {
                items: [0; MOST_MARKS],
                length: 0,
            },
            delta: [0; 380],
        }
    }

    // The digest of all slots and of the delta, each with its length before it.
    pub fn digest(&self) -> u64 {
        let sum = self
            .slots
            .iter()
            .fold(0, |sum, slot| with_length(sum, slot.all()));
        with_length(sum, &self.delta)
    }

    pub fn marks_digest(&self) -> u64 {
        self.marks
            .all()
            .iter()
            .fold(0, |sum, mark| stream::digest(sum, u64::from(*mark)))
    }
}

fn with_length(sum: u64, words: &[u64]) -> u64 {
    words
        .iter()
        .fold(stream::digest(sum, words.len() as u64), |sum, word| {
            stream::digest(sum, *word)
        })
}
