// One function for each call: it takes the numbers of an item, makes the call on its slices and compares.
ghost use Rattle.std.specs.Prelude.{◌≤◌, length};

use vector_stream::items::{Back, Item, Lent, Slices};
use vector_stream::run::ForwardCalls;

#[derive(Drop)]
pub struct Edits;

impl ForwardCalls for Edits {
    fn takes_slices(&self, _call: u8) -> bool {
        true
    }

    fn run<'a>(&mut self, call: u8, item: Item<'a>, lent: &mut Slices<'_>) -> Back<'a> {
        match call {
            11 => insertion(
                item,
                lent.schema.words(),
                &mut lent.own,
                &mut lent.third,
                lent.values.words(),
            ),
            12 => update(item, lent.schema.words(), &mut lent.own, &mut lent.third),
            13 => deletion(item, lent.schema.words(), &mut lent.own, &mut lent.third),
            _ => item.unknown(),
        }
    }
}

fn insertion<'a>(
    from: Item<'a>,
    schema: &[u64],
    own: &mut Lent<'_>,
    delta: &mut Lent<'_>,
    values: &[u64],
) -> Back<'a>
    ensures { length result.item.told.rest.now ≤ length from.entry.told.rest.now }
{
    let mut item = from;
    let relation = item.number() as usize;
    let got = edits::insertion(schema, own.words_mut(), delta.words_mut(), relation, values);
    item.answered(answers::number(got))
        .result(got.unwrap_or(0))
        .own(own)
        .third(delta)
}

fn update<'a>(from: Item<'a>, schema: &[u64], own: &mut Lent<'_>, delta: &mut Lent<'_>) -> Back<'a>
    ensures { length result.item.told.rest.now ≤ length from.entry.told.rest.now }
{
    let mut item = from;
    let index = item.number() as usize;
    let field = item.number() as usize;
    let value = item.number();
    let got = edits::update(
        schema,
        own.words_mut(),
        delta.words_mut(),
        index,
        field,
        value,
    );
    item.answered(answers::number(got)).own(own).third(delta)
}

fn deletion<'a>(
    from: Item<'a>,
    schema: &[u64],
    own: &mut Lent<'_>,
    delta: &mut Lent<'_>,
) -> Back<'a>
    ensures { length result.item.told.rest.now ≤ length from.entry.told.rest.now }
{
    let mut item = from;
    let index = item.number() as usize;
    let got = edits::deletion(schema, own.words_mut(), delta.words_mut(), index);
    item.answered(answers::number(got)).own(own).third(delta)
}
