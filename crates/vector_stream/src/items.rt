// An item: its slices and its numbers, and what is told against what came back.
ghost use Rattle.std.specs.Prelude.{◌≡◌, ◌≤◌, false, eqb, length, min};
ghost use Rattle.vector_stream.specs.Stream.{number_of};

use crate::stream::Stream;

// A slice of an item: the first words of its buffer, as many as the number tells that stands where the slice begins in the stream.
// Behind them stands what items before have left there.
#[derive(Drop)]
pub struct Lent<'b> {
    pub buffer: &'b mut [u64],
    pub from: Stream<'b>,
}

impl Lent<'_> {
    // How many words the slice has in its buffer. The number is read only when a call asks for it.
    fn len(&self) -> usize
        ensures { result ≡ min (number_of self.now.from.rest.now) (length self.now.buffer.now) }
    {
        let mut from = self.from;
        (from.number() as usize).min(self.buffer.len())
    }

    // The words of the slice.
    pub fn words(&self) -> &[u64]
        ensures { length result.now ≡ min (number_of self.now.from.rest.now) (length self.now.buffer.now) }
    {
        let n = self.len();
        &self.buffer[..n]
    }

    // The same, to be written.
    pub fn words_mut(&mut self) -> &mut [u64]
        ensures { length result.now ≡ min (number_of self.old.from.rest.now) (length self.old.buffer.now) }
    {
        let n = self.len();
        &mut self.buffer[..n]
    }
}

// The slices of an item.
#[derive(Drop)]
pub struct Slices<'b> {
    pub schema: Lent<'b>,
    pub own: Lent<'b>,
    pub third: Lent<'b>,
    pub values: Lent<'b>,
}

// What an item tells: its numbers, and where the table and the third slice that it lends begin.
#[derive(Clone, Copy)]
pub struct Item<'a> {
    pub told: Stream<'a>,
    pub own: Stream<'a>,
    pub third: Stream<'a>,
}

// What an item came to: the told answer, and whether everything so far is as told.
#[derive(Clone, Copy)]
pub struct Back<'a> {
    pub item: Item<'a>,
    pub answer: u64,
    pub good: bool,
}

impl<'a> Item<'a> {
    // The next number that the call takes.
    pub fn number(&mut self) -> u64
        ensures { length self.new.told.rest.now ≤ length self.old.told.rest.now }
    {
        self.told.number()
    }

    // The told answer against the one that came back.
    pub fn answered(self, got: u64) -> Back<'a>
        ensures good { result.good ≡ eqb result.answer got }
        ensures rest { length result.item.told.rest.now ≤ length self.entry.told.rest.now }
    {
        let mut item = self;
        let answer = item.number();
        Back {
            item,
            answer,
            good: answer == got,
        }
    }

    // An item of a call that a program does not have.
    pub fn unknown(self) -> Back<'a>
        ensures good { result.good ≡ false }
        ensures item { result.item ≡ self.entry }
    {
        Back {
            item: self,
            answer: 0,
            good: false,
        }
    }
}

impl<'a> Back<'a> {
    // The next told result against the one that came back.
    pub fn result(self, got: u64) -> Back<'a>
        ensures answer { result.answer ≡ self.entry.answer }
        ensures rest { length result.item.told.rest.now ≤ length self.entry.item.told.rest.now }
    {
        let mut back = self;
        back.good &= back.item.number() == got;
        back
    }

    // The told exit of the table, in its buffer.
    pub fn own(self, words: &Lent<'_>) -> Back<'a>
        ensures answer { result.answer ≡ self.entry.answer }
        ensures rest { length result.item.told.rest.now ≤ length self.entry.item.told.rest.now }
    {
        self.exit(self.item.own, words.buffer)
    }

    // The told exit of the third slice, in its buffer.
    pub fn third(self, words: &Lent<'_>) -> Back<'a>
        ensures answer { result.answer ≡ self.entry.answer }
        ensures rest { length result.item.told.rest.now ≤ length self.entry.item.told.rest.now }
    {
        self.exit(self.item.third, words.buffer)
    }

    // The told exit of a slice against its buffer: 0 as it was lent, otherwise the slice.
    fn exit(self, lent: Stream<'a>, buffer: &[u64]) -> Back<'a>
        ensures answer { result.answer ≡ self.entry.answer }
        ensures rest { length result.item.told.rest.now ≤ length self.entry.item.told.rest.now }
    {
        let mut back = self;
        let mut entry = lent;
        if back.item.number() == 0 {
            back.good &= entry.same(buffer);
        } else {
            back.good &= back.item.told.same(buffer);
        }
        back
    }
}
