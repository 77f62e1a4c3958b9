// What is printed after the last item.
ghost use Rattle.std.specs.Prelude.{◌≡◌, IfOk};

use crate::rows;
use crate::tally::Tally;
use std::io;

// Prints the counts; gives the number of the mismatches.
pub(crate) fn report<P: Print>(rt: &P, rows: &[u64; rows::WORDS], tally: &Tally) -> io::Result<u64>
    ensures { IfOk result (λ n. n ≡ tally.now.mismatches) }
{
    println!(rt; "items {}", tally.items)?;
    println!(rt; "words {}", tally.taken.words)?;
    println!(rt; "digest {}", tally.taken.digest)?;
    categories(rt, tally)?;
    answers(rt, rows, tally)?;
    println!(rt; "mismatches {}", tally.mismatches)?;
    Ok(tally.mismatches)
}

fn categories<P: Print>(rt: &P, tally: &Tally) -> io::Result<()> {
    for (category, count) in tally.categories.iter().enumerate() {
        if *count != 0 {
            println!(rt; "category {category} {count}")?;
        }
    }
    Ok(())
}

fn answers<P: Print>(rt: &P, rows: &[u64; rows::WORDS], tally: &Tally) -> io::Result<()> {
    for call in 1..=u8::MAX {
        answers_of(rt, rows::row(rows, call), &tally.answers[usize::from(call)])?;
    }
    Ok(())
}

fn answers_of<P: Print>(rt: &P, row: &[u64], counts: &[u64]) -> io::Result<()> {
    for (answer, count) in counts.iter().enumerate() {
        if *count != 0 {
            print!(rt; "answer ")?;
            rows::print_name(rt, row)?;
            println!(rt; " {answer} {count}")?;
        }
    }
    Ok(())
}
