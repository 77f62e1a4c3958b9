// Merging another table into the own: judge, then act (merge_act).
#![tactic(auto)]

ghost use Rattle.std.specs.Prelude.{◌≡◌, cond, ◌+◌, ◌≤◌, length};
ghost use Rattle.answers.specs.Told.{told};
ghost use Rattle.answers.specs.Refused.{done_told, value_told};
ghost use Rattle.model.specs.Layout.{most_relations, used_at};
ghost use Rattle.model.specs.Records.{place};
ghost use Rattle.model.specs.Tables.{decode};
ghost use Rattle.model.specs.Merge.{merged_records, too_many};
ghost use Rattle.model.specs.Calls.{merge_number, merge_table, merge_changed};
ghost use Rattle.merge_laws.specs.Absorb.{records_in, missing, meets};

use answers::Refusal;
use merge_seek::WholeTable;

// 1 where the record sought is missing, else 0.
fn absent(own: &[u64], link: usize, label: u64) -> usize
    ensures { result ≡ cond (meets own.now link label) 0 1 }
{
    usize::from(!merge_seek::meets(own, link, label))
}

// How many records of a relation of the other table the own lacks.
fn missing_in(own: WholeTable, other: WholeTable, relation: usize) -> usize
    requires { (1 ≤ relation) × (relation ≤ most_relations) }
    ensures { result + missing (records_in own.entry.words.now) (place (relation + 1) 0) (records_in other.entry.words.now) ≡ missing (records_in own.entry.words.now) (place relation 0) (records_in other.entry.words.now) }
{
    let mut link = layout::FIRST_WORDS + (relation - 1);
    let mut j = layout::first_at(other.words, relation);
    let mut count = 0;
    while 0 < j {
        link = merge_seek::seek(own.words, link, layout::label_at(other.words, j));
        count += absent(own.words, link, layout::label_at(other.words, j));
        j = layout::next_at(other.words, j);
    }
    count
}

// How many records of the other table the own lacks.
pub fn missing(own: WholeTable, other: WholeTable) -> usize
    ensures { used_at own.entry.words.now + result ≡ length (merged_records (records_in own.entry.words.now) (records_in other.entry.words.now)) }
{
    let mut count = 0;
    for relation in 1..=layout::MOST_RELATIONS {
        count += missing_in(own, other, relation);
    }
    count
}

// Whether the merged records would be more than the own table holds.
fn is_full(own: WholeTable, other: WholeTable) -> bool
    ensures { result ≡ too_many (decode own.entry.words.now) (decode other.entry.words.now) }
{
    layout::capacity(own.words) < layout::used(own.words) + missing(own, other)
}

// What a merge answers, before it counts. Nothing is written.
fn judge(schema: &[u64], own: &[u64], other: &[u64]) -> Result<(), Refusal>
    ensures { done_told result ≡ told (merge_number schema.now own.now other.now) 0 }
{
    let lengths = layout::schema_length(schema)
        & layout::table_length(own)
        & layout::table_length(other);
    if !lengths {
        return Err(Refusal::WrongLength);
    }
    if schema::is_broken(schema) {
        return Err(Refusal::SchemaBroken);
    }
    if !table::well_formed(schema, own) {
        return Err(Refusal::TableBroken);
    }
    if !table::well_formed(schema, other) {
        return Err(Refusal::OtherBroken);
    }
    if is_full(WholeTable { words: own }, WholeTable { words: other }) {
        return Err(Refusal::Full);
    }
    Ok(())
}

// Merges the other table into the own, and says how many records that changed or added. A refusal changes no word.
pub fn merge(schema: &[u64], own: &mut [u64], other: &[u64]) -> Result<usize, Refusal>
    ensures answer { value_told result ≡ told (merge_number schema.now own.old other.now) (merge_changed schema.now own.old other.now) }
    ensures words { own.new ≡ merge_table schema.now own.old other.now }
{
    judge(schema, own, other)?;
    Ok(merge_act::act(own, other))
}
