// Between old and new tables: judge, then write. Both ways are one text, from a form of `V` fields to one of `W`.
#![tactic(auto)]

ghost use Rattle.std.specs.Prelude.{◌≡◌, ◌≤◌};
ghost use Rattle.answers.specs.Told.{told};
ghost use Rattle.answers.specs.Refused.{done_told};
ghost use Rattle.model.specs.Layout.{fields, most_relations, relations};
ghost use Rattle.model.specs.Calls.{done};
ghost use Rattle.model.specs.Shapes.{turned_schema, turned_table, widen_number, widen_schema, widen_table, narrow_number, narrow_schema, narrow_table};
ghost use Rattle.shapes.specs.Turn.{turn_lengths, wider, turn_number};

use answers::Refusal;
use layout::{FIELDS, OLD_FIELDS};

// Whether the four slices have their lengths, with N equal on both sides.
fn lengths<const V: usize, const W: usize>(
    schema: &[u64],
    table: &[u64],
    to_schema: &[u64],
    to_table: &[u64],
) -> bool
    requires { (V ≤ fields) × (W ≤ fields) }
    ensures { result ≡ turn_lengths V W schema.now table.now to_schema.now to_table.now }
{
    let from = layout::schema_length_in::<V>(schema) & layout::table_length_in::<V>(table);
    let sized = layout::schema_length_in::<W>(to_schema);
    let to = layout::table_length_in::<W>(to_table);
    from & sized & to & (layout::capacity_in::<V>(table) == layout::capacity_in::<W>(to_table))
}

// Whether one of the relations has more fields than the form written holds.
fn wider<const V: usize, const W: usize>(schema: &[u64]) -> bool
    requires { (V ≤ fields) × (relations schema.now ≤ most_relations) }
    ensures { result ≡ wider V W schema.now }
{
    let mut wide = false;
    for r in 0..layout::relations(schema) {
        wide |= W < layout::count_in::<V>(schema, r + 1);
    }
    wide
}

// What turning a schema and a table answers. Nothing is written.
fn judge<const V: usize, const W: usize>(
    schema: &[u64],
    table: &[u64],
    to_schema: &[u64],
    to_table: &[u64],
) -> Result<(), Refusal>
    requires { (V ≤ fields) × (W ≤ fields) }
    ensures { done_told result ≡ told (turn_number V W schema.now table.now to_schema.now to_table.now) 0 }
{
    if !lengths::<V, W>(schema, table, to_schema, to_table) {
        return Err(Refusal::WrongLength);
    }
    if schema::is_broken_in::<V>(schema) {
        return Err(Refusal::SchemaBroken);
    }
    if !table::well_formed_in::<V>(schema, table) {
        return Err(Refusal::TableBroken);
    }
    if wider::<V, W>(schema) {
        return Err(Refusal::TooManyFields);
    }
    Ok(())
}

// Turns a schema and a table into ones of `W` fields. Old contents of those written are ignored; a refusal changes no word.
fn turn<const V: usize, const W: usize>(
    schema: &[u64],
    table: &[u64],
    to_schema: &mut [u64],
    to_table: &mut [u64],
) -> Result<(), Refusal>
    requires { (V ≤ fields) × (W ≤ fields) }
    ensures answer { done_told result ≡ told (turn_number V W schema.now table.now to_schema.old to_table.old) 0 }
    ensures schema_words { to_schema.new ≡ done (turn_number V W schema.now table.now to_schema.old to_table.old) (turned_schema V W schema.now) to_schema.old }
    ensures table_words { to_table.new ≡ done (turn_number V W schema.now table.now to_schema.old to_table.old) (turned_table V W table.now) to_table.old }
{
    judge::<V, W>(schema, table, to_schema, to_table)?;
    shape_turn::turn_schema::<V, W>(schema, to_schema);
    shape_turn::turn_table::<V, W>(table, to_table);
    Ok(())
}

// Turns an old schema and table into new ones. Old contents of `schema` and `table` are ignored; a refusal changes no word.
pub fn widen(
    old_schema: &[u64],
    old_table: &[u64],
    schema: &mut [u64],
    table: &mut [u64],
) -> Result<(), Refusal>
    ensures answer { done_told result ≡ told (widen_number old_schema.now old_table.now schema.old table.old) 0 }
    ensures schema_words { schema.new ≡ widen_schema old_schema.now old_table.now schema.old table.old }
    ensures table_words { table.new ≡ widen_table old_schema.now old_table.now schema.old table.old }
{
    turn::<OLD_FIELDS, FIELDS>(old_schema, old_table, schema, table)
}

// Turns a schema and a table back into old ones. Old contents of `old_schema` and `old_table` are ignored; a refusal changes no word.
pub fn narrow(
    schema: &[u64],
    table: &[u64],
    old_schema: &mut [u64],
    old_table: &mut [u64],
) -> Result<(), Refusal>
    ensures answer { done_told result ≡ told (narrow_number schema.now table.now old_schema.old old_table.old) 0 }
    ensures schema_words { old_schema.new ≡ narrow_schema schema.now table.now old_schema.old old_table.old }
    ensures table_words { old_table.new ≡ narrow_table schema.now table.now old_schema.old old_table.old }
{
    turn::<FIELDS, OLD_FIELDS>(schema, table, old_schema, old_table)
}
