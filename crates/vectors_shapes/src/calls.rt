// Both calls turn a schema and a table: the call is made on an item's slices, and what comes back is compared.
ghost use Rattle.std.specs.Prelude.{◌≤◌, length};

use answers::Refusal;
use vector_stream::items::{Back, Item, Lent, Slices};
use vector_stream::run::ForwardCalls;
use vector_stream::stream;

#[derive(Drop)]
pub struct Shapes;

impl ForwardCalls for Shapes {
    fn takes_slices(&self, _call: u8) -> bool {
        true
    }

    fn run<'a>(&mut self, call: u8, item: Item<'a>, lent: &mut Slices<'_>) -> Back<'a> {
        match call {
            33 => turn(
                item,
                lent.schema.words(),
                lent.own.words(),
                &mut lent.third,
                shapes::widen,
            ),
            34 => turn(
                item,
                lent.schema.words(),
                lent.own.words(),
                &mut lent.third,
                shapes::narrow,
            ),
            _ => item.unknown(),
        }
    }
}

// An item tells where the schema written begins in the slice of both schemas: it has the words that stand behind the schema turned.
fn turn<'a, F: FnOnce(&[u64], &[u64], &mut [u64], &mut [u64]) -> Result<(), Refusal>>(
    from: Item<'a>,
    schemas: &[u64],
    own: &[u64],
    third: &mut Lent<'_>,
    call: F,
) -> Back<'a>
    requires { F.IsAlwaysCallable call }
    ensures { length result.item.told.rest.now ≤ length from.entry.told.rest.now }
{
    let mut item = from;
    let mut held = [0u64; stream::SCHEMA_WORDS];
    let begins = (item.number() as usize).min(schemas.len());
    let (schema, behind) = schemas.split_at(begins);
    let written = &mut held[..behind.len().min(stream::SCHEMA_WORDS)];
    for (to, word) in written.iter_mut().zip(behind) {
        *to = *word;
    }
    let got = call(schema, own, written, third.words_mut());
    item.answered(answers::number(got))
        .result(
            written
                .iter()
                .fold(0, |sum, word| stream::digest(sum, *word)),
        )
        .third(third)
}
