// Which of two copies is ahead (document 02, F-3): checks, then each table held against the other (compare_within).
#![tactic(auto)]

ghost use Rattle.std.specs.Prelude.{◌≡◌};
ghost use Rattle.answers.specs.Told.{told};
ghost use Rattle.answers.specs.Refused.{verdict_number, verdict_told};
ghost use Rattle.model.specs.Tables.{contents};
ghost use Rattle.model.specs.Compare.{compared, compare_number, compare_verdict};

use answers::{Refusal, Verdict};
use merge_seek::WholeTable;

// The verdict on two well-formed tables.
fn judge(first: WholeTable, second: WholeTable) -> Verdict
    ensures { verdict_number result ≡ compared (contents first.entry.words.now) (contents second.entry.words.now) }
{
    let first_within = compare_within::within(first, second);
    let second_within = compare_within::within(second, first);
    match (first_within, second_within) {
        (true, true) => Verdict::Alike,
        (true, false) => Verdict::FirstBehind,
        (false, true) => Verdict::SecondBehind,
        (false, false) => Verdict::Neither,
    }
}

// Says of two tables under one schema whether they are alike, which one is behind, or that neither contains the other. Nothing is written.
pub fn compare(schema: &[u64], first: &[u64], second: &[u64]) -> Result<Verdict, Refusal>
    ensures { verdict_told result ≡ told (compare_number schema.now first.now second.now) (compare_verdict schema.now first.now second.now) }
{
    let lengths = layout::schema_length(schema)
        & layout::table_length(first)
        & layout::table_length(second);
    if !lengths {
        return Err(Refusal::WrongLength);
    }
    if schema::is_broken(schema) {
        return Err(Refusal::SchemaBroken);
    }
    if !table::well_formed(schema, first) {
        return Err(Refusal::TableBroken);
    }
    if !table::well_formed(schema, second) {
        return Err(Refusal::OtherBroken);
    }
    Ok(judge(WholeTable { words: first }, WholeTable { words: second }))
}
