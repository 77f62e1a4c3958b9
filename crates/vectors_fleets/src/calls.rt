// One function for each call over a fleet: it takes the numbers of an item, makes the call on the fleet's slots and compares.
ghost use Rattle.std.specs.Prelude.{◌<◌, ◌≤◌, length};

use crate::slots::{Fleet, Held, MOST_MARKS, SLOTS};
use list_walk::Place;
use vector_stream::items::{Back, Item, Slices};
use vector_stream::run::ForwardCalls;

impl ForwardCalls for Fleet {
    fn takes_slices(&self, _call: u8) -> bool {
        true
    }

    fn run<'a>(&mut self, call: u8, item: Item<'a>, lent: &mut Slices<'_>) -> Back<'a> {
        // The calls under the fleet's schema leave it in the buffer of the lent one, where a begin that is lent none finds it.
        if (21..=26).contains(&call) {
            self.schema.fetch(lent.schema.buffer);
        }
        match call {
            16 => begin(item, self, lent.schema.words()),
            17 => start(item, self),
            18 => copy(item, self),
            19 => copy_delta(item, self),
            20 => spoil(item, self),
            21 => merge(item, self),
            22 => insertion(item, self, lent.values.words()),
            23 => update(item, self),
            24 => deletion(item, self),
            25 => marks(item, self),
            26 => walk(item, self),
            _ => item.unknown(),
        }
    }
}

// The next number as a slot's.
fn slot_of(item: &mut Item<'_>) -> usize
    ensures slot { result < 8 }
    ensures rest { length item.new.told.rest.now ≤ length item.old.told.rest.now }
{
    (item.number() % SLOTS as u64) as usize
}

// The words of a slot of this capacity.
fn words_of(capacity: u64) -> usize {
    layout::HEADER_WORDS + layout::RECORD_WORDS * (capacity % (MOST_MARKS as u64 + 1)) as usize
}

// How many records a slot of this many words has.
fn capacity(words: usize) -> usize
    ensures { result ≤ 24 }
{
    (words.saturating_sub(layout::HEADER_WORDS) / layout::RECORD_WORDS).min(MOST_MARKS)
}

// An empty fleet with this schema, and the capacities of its five tables.
fn begin<'a>(from: Item<'a>, fleet: &mut Fleet, schema: &[u64]) -> Back<'a>
    ensures { length result.item.told.rest.now ≤ length from.entry.told.rest.now }
{
    let mut item = from;
    *fleet = Fleet::new();
    fleet.schema.put(schema);
    let _tables = item.number();
    for slot in 0..SLOTS {
        let capacity = if slot < 5 { item.number() } else { 0 };
        fleet.slots[slot].length = words_of(capacity);
    }
    item.answered(0).result(fleet.digest())
}

fn start<'a>(from: Item<'a>, fleet: &mut Fleet) -> Back<'a>
    ensures { length result.item.told.rest.now ≤ length from.entry.told.rest.now }
{
    let mut item = from;
    let slot = slot_of(&mut item);
    let replica = item.number();
    let got = table_start::start(fleet.slots[slot].all_mut(), replica);
    item.answered(answers::number(got)).result(fleet.digest())
}

fn copy<'a>(from: Item<'a>, fleet: &mut Fleet) -> Back<'a>
    ensures { length result.item.told.rest.now ≤ length from.entry.told.rest.now }
{
    let mut item = from;
    let slot = slot_of(&mut item);
    let to = slot_of(&mut item);
    fleet.slots[to] = fleet.slots[slot];
    item.answered(0).result(fleet.digest())
}

fn copy_delta<'a>(from: Item<'a>, fleet: &mut Fleet) -> Back<'a>
    ensures { length result.item.told.rest.now ≤ length from.entry.told.rest.now }
{
    let mut item = from;
    let slot = slot_of(&mut item);
    let Fleet { slots, delta, .. } = fleet;
    slots[slot].put(delta);
    item.answered(0).result(fleet.digest())
}

fn spoil<'a>(from: Item<'a>, fleet: &mut Fleet) -> Back<'a>
    ensures { length result.item.told.rest.now ≤ length from.entry.told.rest.now }
{
    let mut item = from;
    let slot = slot_of(&mut item);
    let index = item.number() as usize;
    let word = item.number();
    if let Some(to) = fleet.slots[slot].all_mut().get_mut(index) {
        *to = word;
    }
    item.answered(0).result(fleet.digest())
}

// A copy of the second slot is merged into the first.
fn merge<'a>(from: Item<'a>, fleet: &mut Fleet) -> Back<'a>
    ensures { length result.item.told.rest.now ≤ length from.entry.told.rest.now }
{
    let mut item = from;
    let slot = slot_of(&mut item);
    let other = fleet.slots[slot_of(&mut item)];
    let Fleet { slots, schema, .. } = fleet;
    let got = merge::merge(schema.all(), slots[slot].all_mut(), other.all());
    item.answered(answers::number(got))
        .result(got.unwrap_or(0) as u64)
        .result(fleet.digest())
}

fn insertion<'a>(from: Item<'a>, fleet: &mut Fleet, values: &[u64]) -> Back<'a>
    ensures { length result.item.told.rest.now ≤ length from.entry.told.rest.now }
{
    let mut item = from;
    let slot = slot_of(&mut item);
    let relation = item.number() as usize;
    let Fleet {
        slots,
        schema,
        delta,
        ..
    } = fleet;
    let own = slots[slot].all_mut();
    let got = edits::insertion(schema.all(), own, delta, relation, values);
    item.answered(answers::number(got))
        .result(got.unwrap_or(0))
        .result(fleet.digest())
}

fn update<'a>(from: Item<'a>, fleet: &mut Fleet) -> Back<'a>
    ensures { length result.item.told.rest.now ≤ length from.entry.told.rest.now }
{
    let mut item = from;
    let slot = slot_of(&mut item);
    let index = item.number() as usize;
    let field = item.number() as usize;
    let value = item.number();
    let Fleet {
        slots,
        schema,
        delta,
        ..
    } = fleet;
    let own = slots[slot].all_mut();
    let got = edits::update(schema.all(), own, delta, index, field, value);
    item.answered(answers::number(got)).result(fleet.digest())
}

fn deletion<'a>(from: Item<'a>, fleet: &mut Fleet) -> Back<'a>
    ensures { length result.item.told.rest.now ≤ length from.entry.told.rest.now }
{
    let mut item = from;
    let slot = slot_of(&mut item);
    let index = item.number() as usize;
    let Fleet {
        slots,
        schema,
        delta,
        ..
    } = fleet;
    let own = slots[slot].all_mut();
    let got = edits::deletion(schema.all(), own, delta, index);
    item.answered(answers::number(got)).result(fleet.digest())
}

// Marks over as many zeros as the slot has records; they stay.
fn marks<'a>(from: Item<'a>, fleet: &mut Fleet) -> Back<'a>
    ensures { length result.item.told.rest.now ≤ length from.entry.told.rest.now }
{
    let mut item = from;
    let slot = slot_of(&mut item);
    let own = fleet.slots[slot];
    let mut marks = Held {
        items: [0; MOST_MARKS],
        length: capacity(own.length),
    };
    let got = list_shown::marks(fleet.schema.all(), own.all(), marks.all_mut());
    fleet.marks = marks;
    item.answered(answers::number(got))
        .result(got.unwrap_or(0) as u64)
        .result(fleet.marks_digest())
}

// A walk over the marks that stay.
fn walk<'a>(from: Item<'a>, fleet: &Fleet) -> Back<'a>
    ensures { length result.item.told.rest.now ≤ length from.entry.told.rest.now }
{
    let mut item = from;
    let slot = slot_of(&mut item);
    let mut place = Place {
        index: item.number() as usize,
    };
    let own = fleet.slots[slot].all();
    let got = list_walk::next(&mut place, fleet.schema.all(), own, fleet.marks.all());
    item.answered(answers::number(got))
        .result(answers::index(got) as u64)
        .result(place.index as u64)
}
