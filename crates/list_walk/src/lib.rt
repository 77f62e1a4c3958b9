// The list walk: the next record in list order whose mark is 1, from a place that the caller holds.
#![tactic(auto)]

ghost use Rattle.std.specs.Prelude.{◌≡◌};
ghost use Rattle.answers.specs.Told.{told_ended};
ghost use Rattle.answers.specs.Refused.{given_told};
ghost use Rattle.model.specs.Calls.{walk_number, walk_given, walk_ended, walk_place};
ghost use Rattle.list_step.specs.Given.{index_or};

use answers::Refusal;

// What a step gives, and the place after it.
#[derive(Clone, Copy)]
pub struct Moved {
    pub answer: Result<Option<usize>, Refusal>,
    pub index: usize,
}

// The place after an answer: only a record moves it.
fn place_after(place: usize, answer: Result<Option<usize>, Refusal>) -> usize
    ensures { result ≡ index_or place answer }
{
    answer.ok().flatten().unwrap_or(place)
}

// One step of the walk by value: what it gives, and the place after it.
pub fn advance(schema: &[u64], table: &[u64], marks: &[u8], place: usize) -> Moved
    ensures { (given_told result.answer ≡ told_ended (walk_number schema.now table.now marks.now place) (walk_given schema.now table.now marks.now place) (walk_ended schema.now table.now marks.now place)) × (result.index ≡ walk_place schema.now table.now marks.now place) }
{
    let answer = list_step::step(schema, table, marks, place);
    Moved {
        answer,
        index: place_after(place, answer),
    }
}

// A reader's place in the list: the index of the record last given, 0 before the first.
#[derive(Clone, Copy)]
pub struct Place {
    pub index: usize,
}

// The next record of the list, and the place moved to it. At the end and in a refusal the place does not move.
pub fn next(
    place: &mut Place,
    schema: &[u64],
    table: &[u64],
    marks: &[u8],
) -> Result<Option<usize>, Refusal>
    ensures { (given_told result ≡ told_ended (walk_number schema.now table.now marks.now place.old.index) (walk_given schema.now table.now marks.now place.old.index) (walk_ended schema.now table.now marks.now place.old.index)) × (place.new.index ≡ walk_place schema.now table.now marks.now place.old.index) }
{
    let m = advance(schema, table, marks, place.index);
    place.index = m.index;
    m.answer
}

// One step for a caller that holds the index alone: the place is made here, lent to `next`, and its index read back.
pub fn next_from(schema: &[u64], table: &[u64], marks: &[u8], index: usize) -> Moved
    ensures { (given_told result.answer ≡ told_ended (walk_number schema.now table.now marks.now index) (walk_given schema.now table.now marks.now index) (walk_ended schema.now table.now marks.now index)) × (result.index ≡ walk_place schema.now table.now marks.now index) }
{
    let mut place = Place { index };
    let answer = next(&mut place, schema, table, marks);
    Moved {
        answer,
        index: place.index,
    }
}
