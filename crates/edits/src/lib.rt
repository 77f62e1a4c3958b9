// The three edits of document 01: judge, then draft the delta, then merge the delta into the own table. A refusal changes no word.
#![tactic(auto)]

ghost use Rattle.std.specs.Prelude.{◌≡◌};
ghost use Rattle.answers.specs.Refused.{done_told, value_told};
ghost use Rattle.answers.specs.Told.{told};
ghost use Rattle.model.specs.Calls.{insertion_number, insertion_label, insertion_table, insertion_delta, update_number, update_table, update_delta, deletion_number, deletion_table, deletion_delta};

use answers::Refusal;

// Inserts a record of relation `relation` into the own table, and writes the delta.
pub fn insertion(
    schema: &[u64],
    own: &mut [u64],
    delta: &mut [u64],
    relation: usize,
    values: &[u64],
) -> Result<u64, Refusal>
    ensures answer { value_told result ≡ told (insertion_number schema.now own.old delta.old relation values.now) (insertion_label schema.now own.old delta.old relation values.now) }
    ensures words { own.new ≡ insertion_table schema.now own.old delta.old relation values.now }
    ensures delta_words { delta.new ≡ insertion_delta schema.now own.old delta.old relation values.now }
{
    let mut redo = [0u8; layout::MOST_RECORDS];
    edit_insertion::judge_insertion(schema, own, delta, relation, values, &mut redo)?;
    let label = edit_record::new_label(own);
    edit_delta::draft_insertion(schema, own, delta, relation, values, &redo);
    merge_act::act(own, delta);
    Ok(label)
}

// Updates a field of record `index` of the own table, and writes the delta.
pub fn update(
    schema: &[u64],
    own: &mut [u64],
    delta: &mut [u64],
    index: usize,
    field: usize,
    value: u64,
) -> Result<(), Refusal>
    ensures answer { done_told result ≡ told (update_number schema.now own.old delta.old index field value) 0 }
    ensures words { own.new ≡ update_table schema.now own.old delta.old index field value }
    ensures delta_words { delta.new ≡ update_delta schema.now own.old delta.old index field value }
{
    let mut redo = [0u8; layout::MOST_RECORDS];
    edit_update::judge_update(schema, own, delta, index, field, value, &mut redo)?;
    edit_delta::draft_update(schema, own, delta, index, field, value, &redo);
    merge_act::act(own, delta);
    Ok(())
}

// Deletes record `index` of the own table, and writes the delta.
pub fn deletion(
    schema: &[u64],
    own: &mut [u64],
    delta: &mut [u64],
    index: usize,
) -> Result<(), Refusal>
    ensures answer { done_told result ≡ told (deletion_number schema.now own.old delta.old index) 0 }
    ensures words { own.new ≡ deletion_table schema.now own.old delta.old index }
    ensures delta_words { delta.new ≡ deletion_delta schema.now own.old delta.old index }
{
    let mut redo = [0u8; layout::MOST_RECORDS];
    edit_deletion::judge_deletion(schema, own, delta, index, &mut redo)?;
    edit_delta::draft_deletion(schema, own, delta, index, &redo);
    merge_act::act(own, delta);
    Ok(())
}
