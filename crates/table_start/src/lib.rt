// Starting a table, and the values of a record as a part of the lent table.
#![tactic(auto)]

ghost use Rattle.std.specs.Prelude.{◌≡◌, ◌+◌, ◌*◌};
ghost use Rattle.answers.specs.Told.{told};
ghost use Rattle.answers.specs.Refused.{done_told};
ghost use Rattle.model.specs.Layout.{word_bytes};
ghost use Rattle.model.specs.Calls.{start_number, start_table, values_part, values_first};

use answers::Refusal;
use crdt::Label;

// Starts a table: zeroes it and writes the replica number.
pub fn start(table: &mut [u64], replica: u64) -> Result<(), Refusal>
    ensures answer { done_told result ≡ told (start_number table.old replica) 0 }
    ensures words { table.new ≡ start_table table.old replica }
{
    if !layout::table_length(table) {
        return Err(Refusal::WrongLength);
    }
    if !((1 <= replica) & (replica <= Label::LARGEST_REPLICA)) {
        return Err(Refusal::RelationOrReplica);
    }
    table.fill(0);
    layout::store(table, layout::REPLICA_WORD, replica);
    Ok(())
}

// The values of record `index`, a part of the lent table; an empty part where there is no such record.
pub fn values(table: &[u64], index: usize) -> &[u64]
    ensures words { result.now ≡ values_part table.now index }
    ensures part { (result.ref_ptr.0 ≡ table.entry.ref_ptr.0) × (result.ref_ptr.1 ≡ table.entry.ref_ptr.1 + word_bytes * values_first table.now index) }
{
    if !layout::table_length(table) {
        return &table[0..0];
    }
    if layout::bad_index(table, index) {
        return &table[0..0];
    }
    let at = layout::base(index) + layout::HEAD_WORDS;
    &table[at..at + layout::FIELDS]
}
