// Known or not, sooner (document 02, F-6): a record looked up by relation and label. The header is tested, and of the records those that are
// read.
#![tactic(auto)]

ghost use Rattle.std.specs.Prelude.{◌≡◌};
ghost use Rattle.answers.specs.Told.{told_known};
ghost use Rattle.answers.specs.Refused.{known_told};
ghost use Rattle.model.specs.Lookup.{lookup_seek, lookup_number, lookup_index, lookup_known};
ghost use Rattle.lookup.specs.Sought.{sought_told};

use answers::Refusal;
use layout::FIELDS;
use table::Stop;
use table_rules::Readable;

// What is told of where the walk along the chain of relation `r` stops: known where it meets the label looked for.
fn seek(of: Readable<FIELDS>, r: usize, label: u64) -> Result<Option<usize>, Refusal>
    ensures { known_told result ≡ sought_told (lookup_seek of.entry.schema.now of.entry.table.now r label) }
{
    match table::walk_to::<FIELDS>(of, r, label) {
        None => Err(Refusal::TableBroken),
        Some(Stop::At(i)) => Ok((layout::label_at(of.table, i) == label).then_some(i)),
        Some(Stop::End(_)) => Ok(None),
    }
}

// The index of the record of that relation and label, shown or not; none where it isn't known. Nothing is written.
pub fn lookup(
    schema: &[u64],
    table: &[u64],
    relation: usize,
    label: u64,
) -> Result<Option<usize>, Refusal>
    ensures { known_told result ≡ told_known (lookup_number schema.now table.now relation label) (lookup_index schema.now table.now relation label) (lookup_known schema.now table.now relation label) }
{
    let lengths = layout::schema_length(schema) & layout::table_length(table);
    if !lengths {
        return Err(Refusal::WrongLength);
    }
    if schema::is_broken(schema) {
        return Err(Refusal::SchemaBroken);
    }
    let header = table_rules::header_rules(table)
        & table_rules::firsts_rule(table)
        & table_rules::empty_above(schema, table);
    let inside = (1 <= relation) & (relation <= layout::relations(schema));
    if !header {
        return Err(Refusal::TableBroken);
    }
    if !inside {
        return Err(Refusal::RelationOrReplica);
    }
    seek(Readable { schema, table }, relation, label)
}
