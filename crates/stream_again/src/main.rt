// A program whose calls go back in the stream: the slice of an item is read again as the items behind it. `vector_stream::run` asks
// no promise of a program's calls, and runs no more items than the stream tells.
#![tactic(auto)]

use std::io;
use vector_stream::items::{Back, Item, Slices};
use vector_stream::run;
use vector_stream::run::Calls;

#[derive(Drop)]
struct Again;

impl Calls for Again {
    fn takes_slices(&self, _call: u8) -> bool {
        true
    }

    fn run<'a>(&mut self, _call: u8, item: Item<'a>, _slices: &mut Slices<'_>) -> Back<'a> {
        let back = item.answered(0);
        Back {
            item: Item {
                told: item.own,
                own: item.own,
                third: item.third,
            },
            answer: back.answer,
            good: back.good,
        }
    }
}

fn main(rt: HostRuntime) -> io::Result<()> {
    run::run_stream(&rt, &mut Again)?;
    Ok(())
}
