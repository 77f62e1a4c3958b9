// The counts: for each category, for each answer of each call, of the items and of the mismatches.
ghost use Rattle.std.specs.Prelude.{◌≡◌, ◌+◌, false, min, OnErr};

use crate::stream::Taken;
use std::io;

const CATEGORIES: usize = 256;

const CALLS: usize = 256;

pub(crate) const ANSWERS_OF_CALL: usize = 32;

const PRINTED: u64 = 10;

#[derive(Drop)]
pub struct Tally {
    pub categories: [u64; CATEGORIES],
    // The answers of calls, 32 to a call.
    pub answers: [[u64; ANSWERS_OF_CALL]; CALLS],
    pub items: usize,
    pub taken: Taken,
    pub mismatches: u64,
}

impl Tally {
    pub(crate) fn new() -> Tally
        ensures { (result.items ≡ 0) × ((result.taken.words ≡ 0) × ((result.taken.digest ≡ 0) × (result.mismatches ≡ 0))) }
    {
        Tally {
            categories: [0; CATEGORIES],
            answers: [[0; ANSWERS_OF_CALL]; CALLS],
            items: 0,
            taken: Taken {
                words: 0,
                digest: 0,
            },
            mismatches: 0,
        }
    }

    // Counts an item of a category and the answer of its call; a mismatch too, whose item's number is printed while there are few.
    // It can fail where it prints.
    pub(crate) fn count<P: Print>(
        &mut self,
        rt: &P,
        category: u8,
        call: u8,
        answer: u64,
        good: bool,
    ) -> io::Result<()>
        ensures items { self.new.items ≡ min (self.old.items + 1) 18446744073709551615 }
        ensures taken { self.new.taken ≡ self.old.taken }
        ensures failed { OnErr result (good ≡ false) }
    {
        add(&mut self.categories[usize::from(category)]);
        add(&mut self.answers[usize::from(call)][(answer % ANSWERS_OF_CALL as u64) as usize]);
        self.items = self.items.saturating_add(1);
        if good {
            return Ok(());
        }
        add(&mut self.mismatches);
        if PRINTED < self.mismatches {
            return Ok(());
        }
        println!(rt; "mismatch {}", self.items)
    }
}

fn add(count: &mut u64) {
    *count = count.saturating_add(1);
}
