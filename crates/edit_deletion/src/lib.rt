// The checks of a deletion, in number order, and the marks of the records that it redoes.
#![tactic(auto)]

ghost use Rattle.std.specs.Prelude.{◌≡◌, ◌*◌, length, IfOk};
ghost use Rattle.answers.specs.Refused.{number_of};
ghost use Rattle.model.specs.Layout.{most_records};
ghost use Rattle.model.specs.Lists.{lowest};
ghost use Rattle.model.specs.Schemas.{schema_of};
ghost use Rattle.model.specs.Tables.{record_of};
ghost use Rattle.model.specs.Edits.{deletion_redoes};
ghost use Rattle.model.specs.Calls.{deletion_of, deletion_number};
ghost use Rattle.edit_delta.specs.Picked.{Picked};
ghost use Rattle.edit_basics.specs.Targets.{held, Placed};

use answers::Refusal;
use edit_basics::Surveyed;
use judged::Judged;

// Checks 6, 10 and 13 of the deletion of record `i`; the marks of the records to be redone, where none applies.
fn check_deletion(s: Surveyed<'_>, i: usize, redo: &mut [u8]) -> Result<(), Refusal>
    requires { Placed s.t.schema.now s.t.table.now i × (most_records ≡ length redo.old) }
    ensures number { number_of result ≡ lowest (deletion_of s.entry.t.schema.now s.entry.t.table.now i).checks }
    ensures redone { IfOk result (λ _. Picked s.entry.t.table.now (deletion_redoes (schema_of s.entry.t.schema.now) (held s.entry.t.table.now) (record_of s.entry.t.table.now i)) redo.new) }
{
    if !marks::is_marked(s.marks, i) {
        return Err(Refusal::NotShown);
    }
    if edit_conflicts::is_held(s, s.stands, i) {
        return Err(Refusal::Referenced);
    }
    edit_redo::mark_deletion(s, i, redo);
    if edit_redo::is_spent(s.t, redo) {
        return Err(Refusal::FlagSpent);
    }
    Ok(())
}

// Checks 6 to 13 of a deletion from a judged table; the marks of the records to be redone, where none applies.
fn deletion_checks(t: Judged<'_>, index: usize, redo: &mut [u8]) -> Result<(), Refusal>
    requires { Placed t.schema.now t.table.now index × (most_records ≡ length redo.old) }
    ensures number { number_of result ≡ lowest (deletion_of t.entry.schema.now t.entry.table.now index).checks }
    ensures redone { IfOk result (λ _. Picked t.entry.table.now (deletion_redoes (schema_of t.entry.schema.now) (held t.entry.table.now) (record_of t.entry.table.now index)) redo.new) }
{
    let mut refs = [0u16; layout::FIELDS * layout::MOST_RECORDS];
    let mut stands = [0u8; layout::MOST_RECORDS];
    let mut marks = [0u8; layout::MOST_RECORDS];
    let s = edit_first::survey(t, &mut refs, &mut stands, &mut marks);
    check_deletion(s, index, redo)
}

// What a deletion answers; the marks of the records to be redone, where it is accepted.
pub fn judge_deletion(
    schema: &[u64],
    own: &[u64],
    delta: &[u64],
    index: usize,
    redo: &mut [u8],
) -> Result<(), Refusal>
    requires { most_records ≡ length redo.old }
    ensures number { number_of result ≡ deletion_number schema.now own.now delta.now index }
    ensures redone { IfOk result (λ _. Picked own.now (deletion_redoes (schema_of schema.now) (held own.now) (record_of own.now index)) redo.new) }
{
    let t = edit_first::first_checks(schema, own, delta, layout::bad_index(own, index))?;
    deletion_checks(t, index, redo)
}
