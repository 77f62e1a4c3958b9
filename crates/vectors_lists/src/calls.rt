// One function for each call: it takes the numbers of an item, makes the call on its slices and compares. The third slice has a
// word for each mark.
ghost use Rattle.std.specs.Prelude.{◌≡◌, ◌≤◌, length};

use list_walk::Place;
use vector_stream::items::{Back, Item, Lent, Slices};
use vector_stream::run::ForwardCalls;

// How many marks are held: a table has at most 4,096 records, and a wrong length a few more.
const MOST_MARKS: usize = layout::MOST_RECORDS + 4;

#[derive(Drop)]
pub struct Lists;

impl ForwardCalls for Lists {
    fn takes_slices(&self, _call: u8) -> bool {
        true
    }

    fn run<'a>(&mut self, call: u8, item: Item<'a>, lent: &mut Slices<'_>) -> Back<'a> {
        match call {
            14 => marks(item, lent.schema.words(), lent.own.words(), &mut lent.third),
            15 => walk(
                item,
                lent.schema.words(),
                lent.own.words(),
                lent.third.words(),
            ),
            _ => item.unknown(),
        }
    }
}

// Puts marks, which the stream holds as words, into bytes.
fn to_bytes(words: &[u64], bytes: &mut [u8])
    ensures { length bytes.new ≡ length bytes.old }
{
    for (byte, word) in bytes.iter_mut().zip(words) {
        *byte = (*word % 256) as u8;
    }
}

// Puts marks back into words.
fn to_words(bytes: &[u8], words: &mut [u64])
    ensures { length words.new ≡ length words.old }
{
    for (word, byte) in words.iter_mut().zip(bytes) {
        *word = u64::from(*byte);
    }
}

fn marks<'a>(item: Item<'a>, schema: &[u64], own: &[u64], third: &mut Lent<'_>) -> Back<'a>
    ensures { length result.item.told.rest.now ≤ length item.entry.told.rest.now }
{
    let mut held = [0u8; MOST_MARKS];
    let words = third.words_mut();
    let bytes = &mut held[..words.len().min(MOST_MARKS)];
    to_bytes(words, bytes);
    let got = list_shown::marks(schema, own, bytes);
    to_words(bytes, words);
    item.answered(answers::number(got))
        .result(got.unwrap_or(0) as u64)
        .third(third)
}

fn walk<'a>(from: Item<'a>, schema: &[u64], own: &[u64], words: &[u64]) -> Back<'a>
    ensures { length result.item.told.rest.now ≤ length from.entry.told.rest.now }
{
    let mut item = from;
    let mut held = [0u8; MOST_MARKS];
    let bytes = &mut held[..words.len().min(MOST_MARKS)];
    to_bytes(words, bytes);
    let mut place = Place {
        index: item.number() as usize,
    };
    let got = list_walk::next(&mut place, schema, own, bytes);
    item.answered(answers::number(got))
        .result(answers::index(got) as u64)
        .result(place.index as u64)
}
