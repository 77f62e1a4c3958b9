// One step of the list walk: the next record in list order whose mark is 1, from a place.
#![tactic(auto)]

ghost use Rattle.std.specs.Prelude.{◌≡◌, cond, ◌||◌, ◌&&◌, not, ◌≤◌, eqb, ltb};
ghost use Rattle.answers.specs.Told.{told_ended};
ghost use Rattle.answers.specs.Refused.{given_told};
ghost use Rattle.model.specs.Layout.{capacity_of, used_at, relation_at};
ghost use Rattle.model.specs.Records.{least_above, position};
ghost use Rattle.model.specs.Tables.{decode};
ghost use Rattle.model.specs.Calls.{schema_length, table_length, marks_length, marked, place_key, walk_number, walk_given, walk_ended};
ghost use Rattle.list_step.specs.Given.{given};

use answers::Refusal;
use judged::Judged;

// The relation of the record at a place, 0 before the first.
fn relation_of(table: &[u64], place: usize) -> usize
    ensures { result ≡ cond (eqb place 0) 0 (relation_at table.now place) }
{
    if place == 0 {
        return 0;
    }
    layout::relation_at(table, place)
}

// The next marked record after a place, none after the last: along the chains of the relations, one after the other.
pub fn after(t: Judged<'_>, marks: &[u8], place: usize) -> Option<usize>
    requires { place ≤ used_at t.table.now }
    ensures { result ≡ given (position (least_above (place_key (decode t.entry.table.now) place) (marked marks.now (decode t.entry.table.now).records)) (decode t.entry.table.now).records) }
{
    let mut r = relation_of(t.table, place);
    let mut i = place;
    loop {
        if i != 0 {
            i = layout::next_at(t.table, i);
        } else if r < layout::MOST_RELATIONS {
            r += 1;
            i = layout::first_at(t.table, r);
        } else {
            return None;
        }
        if marks::is_marked(marks, i) {
            return Some(i);
        }
    }
}

// Answer 1 of the walk: place 0 is good.
pub fn wrong_length(schema: &[u64], table: &[u64], marks: &[u8], place: usize) -> bool
    ensures { result ≡ (not (schema_length schema.now && table_length table.now && marks_length table.now marks.now) || ltb (used_at table.now) place || ltb (capacity_of table.now) place) }
{
    let lengths = layout::schema_length(schema)
        & layout::table_length(table)
        & layout::marks_length(table, marks);
    !lengths | (layout::used(table) < place) | (layout::capacity(table) < place)
}

// One step of the walk from a place: none at the end.
pub fn step(
    schema: &[u64],
    table: &[u64],
    marks: &[u8],
    place: usize,
) -> Result<Option<usize>, Refusal>
    ensures { given_told result ≡ told_ended (walk_number schema.now table.now marks.now place) (walk_given schema.now table.now marks.now place) (walk_ended schema.now table.now marks.now place) }
{
    if wrong_length(schema, table, marks, place) {
        return Err(Refusal::WrongLength);
    }
    let t = judged::judge(schema, table)?;
    Ok(after(t, marks, place))
}
