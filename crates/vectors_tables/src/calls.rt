// One function for each call: it takes the numbers of an item, makes the call on its slices and compares. The answer of the calls
// on labels, registers and flags is 0.
ghost use Rattle.std.specs.Prelude.{◌≤◌, length};

use crdt::{Label, Register};
use vector_stream::items::{Back, Item, Lent, Slices};
use vector_stream::run::ForwardCalls;

#[derive(Drop)]
pub struct Tables;

impl ForwardCalls for Tables {
    // The calls on labels, registers and flags take numbers alone.
    fn takes_slices(&self, call: u8) -> bool {
        !(1..=5).contains(&call)
    }

    fn run<'a>(&mut self, call: u8, item: Item<'a>, lent: &mut Slices<'_>) -> Back<'a> {
        match call {
            1 => label_of(item),
            2 => register_join(item),
            3 => flag_join(item),
            4 => delete(item),
            5 => redo(item),
            6 => schema_check(item, lent.schema.words()),
            7 => table_check(item, lent.schema.words(), lent.own.words()),
            8 => start(item, &mut lent.own),
            9 => values_of(item, lent.own.words()),
            10 => merge(item, lent.schema.words(), &mut lent.own, lent.third.words()),
            31 => compare(
                item,
                lent.schema.words(),
                lent.own.words(),
                lent.third.words(),
            ),
            32 => lookup(item, lent.schema.words(), lent.own.words()),
            _ => item.unknown(),
        }
    }
}

fn label_of(from: Item<'_>) -> Back<'_>
    ensures { length result.item.told.rest.now ≤ length from.entry.told.rest.now }
{
    let mut item = from;
    let counter = item.number();
    let replica = item.number();
    let label = Label::of(counter, replica);
    item.answered(0).result(label.0)
}

fn register_join(from: Item<'_>) -> Back<'_>
    ensures { length result.item.told.rest.now ≤ length from.entry.told.rest.now }
{
    let mut item = from;
    let left = register(&mut item);
    let right = register(&mut item);
    let joined = crdt::join_registers(left, right);
    let register = joined.unwrap_or(left);
    item.answered(0)
        .result(register.value)
        .result(register.stamp)
        .result(u64::from(joined.is_some()))
}

fn register(item: &mut Item<'_>) -> Register
    ensures { length item.new.told.rest.now ≤ length item.old.told.rest.now }
{
    let value = item.number();
    let stamp = item.number();
    Register { value, stamp }
}

fn flag_join(from: Item<'_>) -> Back<'_>
    ensures { length result.item.told.rest.now ≤ length from.entry.told.rest.now }
{
    let mut item = from;
    let left = item.number();
    let right = item.number();
    let joined = crdt::join_flags(left, right);
    item.answered(0)
        .result(joined.unwrap_or(left))
        .result(u64::from(joined.is_some()))
}

fn delete(from: Item<'_>) -> Back<'_>
    ensures { length result.item.told.rest.now ≤ length from.entry.told.rest.now }
{
    let mut item = from;
    let flag = item.number();
    item.answered(0).result(crdt::delete(flag))
}

fn redo(from: Item<'_>) -> Back<'_>
    ensures { length result.item.told.rest.now ≤ length from.entry.told.rest.now }
{
    let mut item = from;
    let flag = item.number();
    item.answered(0).result(crdt::redo(flag))
}

fn schema_check<'a>(item: Item<'a>, schema: &[u64]) -> Back<'a>
    ensures { length result.item.told.rest.now ≤ length item.entry.told.rest.now }
{
    let got = schema::schema_check(schema);
    item.answered(answers::number(got))
}

fn table_check<'a>(item: Item<'a>, schema: &[u64], own: &[u64]) -> Back<'a>
    ensures { length result.item.told.rest.now ≤ length item.entry.told.rest.now }
{
    let got = table::table_check(schema, own);
    item.answered(answers::number(got))
}

fn start<'a>(from: Item<'a>, own: &mut Lent<'_>) -> Back<'a>
    ensures { length result.item.told.rest.now ≤ length from.entry.told.rest.now }
{
    let mut item = from;
    let replica = item.number();
    let got = table_start::start(own.words_mut(), replica);
    item.answered(answers::number(got)).own(own)
}

// The answer is 1 where the part is empty, and its values are then 0s.
fn values_of<'a>(from: Item<'a>, own: &[u64]) -> Back<'a>
    ensures { length result.item.told.rest.now ≤ length from.entry.told.rest.now }
{
    let mut item = from;
    let index = item.number() as usize;
    let part = table_start::values(own, index);
    let mut back = item.answered(u64::from(part.is_empty()));
    for k in 0..layout::FIELDS {
        back = back.result(part.get(k).copied().unwrap_or(0));
    }
    back
}

fn merge<'a>(item: Item<'a>, schema: &[u64], own: &mut Lent<'_>, third: &[u64]) -> Back<'a>
    ensures { length result.item.told.rest.now ≤ length item.entry.told.rest.now }
{
    let got = merge::merge(schema, own.words_mut(), third);
    item.answered(answers::number(got))
        .result(got.unwrap_or(0) as u64)
        .own(own)
}

fn compare<'a>(item: Item<'a>, schema: &[u64], own: &[u64], third: &[u64]) -> Back<'a>
    ensures { length result.item.told.rest.now ≤ length item.entry.told.rest.now }
{
    let got = compare::compare(schema, own, third);
    item.answered(answers::number(got))
        .result(got.map_or(0, u64::from))
}

fn lookup<'a>(from: Item<'a>, schema: &[u64], own: &[u64]) -> Back<'a>
    ensures { length result.item.told.rest.now ≤ length from.entry.told.rest.now }
{
    let mut item = from;
    let relation = item.number() as usize;
    let label = item.number();
    let got = lookup::lookup(schema, own, relation, label);
    item.answered(answers::number(got))
        .result(answers::index(got) as u64)
}
