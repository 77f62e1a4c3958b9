// One function for each call: it takes the numbers of an item, makes the call on its slices and compares. The number of a kind
// tells which of the six kinds' calls is made; a number that is no kind is a mismatch.
ghost use Rattle.std.specs.Prelude.{◌≤◌, length};

use answers::Refusal;
use vector_stream::items::{Back, Item, Lent, Slices};
use vector_stream::run::ForwardCalls;

const KINDS: u64 = 6;

#[derive(Drop)]
pub struct Book;

impl ForwardCalls for Book {
    fn takes_slices(&self, _call: u8) -> bool {
        true
    }

    fn run<'a>(&mut self, call: u8, item: Item<'a>, lent: &mut Slices<'_>) -> Back<'a> {
        match call {
            27 => enter(item, &mut lent.own, &mut lent.third, &lent.values),
            28 => change(item, &mut lent.own, &mut lent.third),
            29 => strike(item, &mut lent.own, &mut lent.third),
            30 => find(item, lent.own.words()),
            _ => item.unknown(),
        }
    }
}

// The next number as a kind's.
fn kind_of(item: &mut Item<'_>) -> Option<usize>
    ensures { length item.new.told.rest.now ≤ length item.old.told.rest.now }
{
    let kind = item.number();
    ((1 <= kind) & (kind <= KINDS)).then_some(kind as usize)
}

fn enter<'a>(
    from: Item<'a>,
    own: &mut Lent<'_>,
    delta: &mut Lent<'_>,
    values: &Lent<'_>,
) -> Back<'a>
    ensures { length result.item.told.rest.now ≤ length from.entry.told.rest.now }
{
    let mut item = from;
    let Some(kind) = kind_of(&mut item) else {
        return from.unknown();
    };
    let got = enter_kind(kind, own.words_mut(), delta.words_mut(), values.buffer);
    item.answered(answers::number(got))
        .result(got.unwrap_or(0))
        .own(own)
        .third(delta)
}

fn enter_kind(
    kind: usize,
    own: &mut [u64],
    delta: &mut [u64],
    values: &[u64],
) -> Result<u64, Refusal> {
    let value = |k: usize| values.get(k).copied().unwrap_or(0);
    let a = value(0);
    let b = value(1);
    let c = value(2);
    match kind {
        book_schema::GROUP => book_entries::enter_group(own, delta, a),
        book_schema::COW => book_entries::enter_cow(own, delta, a, b, c),
        book_schema::ROBOT => book_entries::enter_robot(own, delta, a),
        book_schema::MILKING => book_entries::enter_milking(
            own,
            delta,
            a,
            b,
            c,
            value(3),
            value(4),
        ),
        book_schema::CLEANING => book_entries::enter_cleaning(own, delta, a, b, c),
        _ => book_entries::enter_treatment(own, delta, a, b, c),
    }
}

fn change<'a>(from: Item<'a>, own: &mut Lent<'_>, delta: &mut Lent<'_>) -> Back<'a>
    ensures { length result.item.told.rest.now ≤ length from.entry.told.rest.now }
{
    let mut item = from;
    let Some(kind) = kind_of(&mut item) else {
        return from.unknown();
    };
    let index = item.number() as usize;
    let field = item.number() as usize;
    let value = item.number();
    let got = book_edits::change(
        own.words_mut(),
        delta.words_mut(),
        kind,
        index,
        field,
        value,
    );
    item.answered(answers::number(got)).own(own).third(delta)
}

fn strike<'a>(from: Item<'a>, own: &mut Lent<'_>, delta: &mut Lent<'_>) -> Back<'a>
    ensures { length result.item.told.rest.now ≤ length from.entry.told.rest.now }
{
    let mut item = from;
    let Some(kind) = kind_of(&mut item) else {
        return from.unknown();
    };
    let index = item.number() as usize;
    let got = book_edits::strike(own.words_mut(), delta.words_mut(), kind, index);
    item.answered(answers::number(got)).own(own).third(delta)
}

fn find<'a>(from: Item<'a>, own: &[u64]) -> Back<'a>
    ensures { length result.item.told.rest.now ≤ length from.entry.told.rest.now }
{
    let mut item = from;
    let label = item.number();
    let got = book_find::find_milking(own, label);
    item.answered(answers::number(got))
        .result(answers::index(got) as u64)
}
