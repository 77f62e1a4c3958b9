// The checks of an insertion, in number order, and the marks of the records that it redoes.
#![tactic(auto)]

ghost use Rattle.std.specs.Prelude.{◌≡◌, true, [], ◌∷◌, ◌≤◌, ◌*◌, eqb, length, IfOk};
ghost use Rattle.crdt.specs.Labels.{largest_counter};
ghost use Rattle.answers.specs.Refused.{number_of};
ghost use Rattle.model.specs.Layout.{fields, most_records, relations, capacity_of, clock_at, used_at};
ghost use Rattle.model.specs.Lists.{some_of, check, lowest};
ghost use Rattle.model.specs.Schemas.{is_reference, schema_of};
ghost use Rattle.model.specs.Records.{Rec};
ghost use Rattle.model.specs.Tables.{decode};
ghost use Rattle.model.specs.Shown.{leads, conflict, standing};
ghost use Rattle.model.specs.Edits.{values_rule, new_record, odd, spent};
ghost use Rattle.model.specs.Calls.{insertion_of, insertion_number};
ghost use Rattle.references.specs.Resolved.{Marked};
ghost use Rattle.edit_delta.specs.Picked.{Picked};
ghost use Rattle.edit_basics.specs.Targets.{kinds_of, bare, held};
ghost use Rattle.edit_laws.specs.Clash.{Padded};

use answers::Refusal;
use crdt::Label;
use edit_basics::Surveyed;
use judged::Judged;

// The values, and zeros behind them.
fn pad(values: &[u64]) -> [u64; layout::FIELDS]
    ensures { Padded values.now result }
{
    let mut padded = [0u64; layout::FIELDS];
    for (j, value) in padded.iter_mut().enumerate() {
        *value = layout::word(values, j);
    }
    padded
}

// Whether a standing record conflicts with a new record of relation `r` on one of its two keys.
pub fn is_insertion_taken(t: Judged<'_>, stands: &[u8], r: usize, values: &[u64]) -> bool
    requires { Marked t.table.now (standing (schema_of t.schema.now) (held t.table.now)) stands.now × (1 ≤ r) × (r ≤ relations t.schema.now) × (values_rule (kinds_of t.schema.now r) values.now ≡ true) }
    ensures { result ≡ some_of (λ (y : Rec). conflict (schema_of t.entry.schema.now) y (new_record fields (decode t.entry.table.now) r values.now)) (standing (schema_of t.entry.schema.now) (held t.entry.table.now)) }
{
    let padded = pad(values);
    let first = layout::mask_at(t.schema, r, 1);
    let second = layout::mask_at(t.schema, r, 2);
    edit_conflicts::is_taken(t, stands, r, first, second, 0, &padded)
}

// Checks 11 to 13 of the insertion of a record; the marks of the records to be redone, where none applies.
fn judge_room(t: Judged<'_>, r: usize, values: &[u64], redo: &mut [u8]) -> Result<(), Refusal>
    requires { (values_rule (kinds_of t.schema.now r) values.now ≡ true) × (most_records ≡ length redo.old) }
    ensures number { number_of result ≡ lowest (check 11 (eqb (used_at t.entry.table.now) (capacity_of t.entry.table.now)) ∷ check 12 (eqb (clock_at t.entry.table.now) largest_counter) ∷ check 13 (spent (held t.entry.table.now) (odd (held t.entry.table.now) (leads is_reference (kinds_of t.entry.schema.now r) (bare values.now)))) ∷ []) }
    ensures redone { IfOk result (λ _. Picked t.entry.table.now (odd (held t.entry.table.now) (leads is_reference (kinds_of t.entry.schema.now r) (bare values.now))) redo.new) }
{
    if layout::used(t.table) == layout::capacity(t.table) {
        return Err(Refusal::Full);
    }
    if layout::clock(t.table) == Label::LARGEST_COUNTER {
        return Err(Refusal::ClockSpent);
    }
    edit_redo::mark_insertion(t, r, values, redo);
    if edit_redo::is_spent(t, redo) {
        return Err(Refusal::FlagSpent);
    }
    Ok(())
}

// Checks 5 to 13 of the insertion of a record; the marks of the records to be redone, where none applies.
fn check_insertion(
    s: Surveyed<'_>,
    r: usize,
    values: &[u64],
    redo: &mut [u8],
) -> Result<(), Refusal>
    requires { (most_records ≡ length redo.old) }
    ensures number { number_of result ≡ lowest (insertion_of s.entry.t.schema.now s.entry.t.table.now r values.now).checks }
    ensures redone { IfOk result (λ _. Picked s.entry.t.table.now (odd (held s.entry.t.table.now) (leads is_reference (kinds_of s.entry.t.schema.now r) (bare values.now))) redo.new) }
{
    if r < 1 {
        return Err(Refusal::RelationOrReplica);
    }
    if layout::relations(s.t.schema) < r {
        return Err(Refusal::RelationOrReplica);
    }
    if !edit_targets::values_rule(s.t.schema, r, values) {
        return Err(Refusal::BadValue);
    }
    if !edit_targets::targets_shown(s, r, values) {
        return Err(Refusal::TargetHidden);
    }
    if is_insertion_taken(s.t, s.stands, r, values) {
        return Err(Refusal::KeyTaken);
    }
    judge_room(s.t, r, values, redo)
}

// Checks 5 to 13 of an insertion into a judged table; the marks of the records to be redone, where none applies.
fn insertion_checks(
    t: Judged<'_>,
    relation: usize,
    values: &[u64],
    redo: &mut [u8],
) -> Result<(), Refusal>
    requires { most_records ≡ length redo.old }
    ensures number { number_of result ≡ lowest (insertion_of t.entry.schema.now t.entry.table.now relation values.now).checks }
    ensures redone { IfOk result (λ _. Picked t.entry.table.now (odd (held t.entry.table.now) (leads is_reference (kinds_of t.entry.schema.now relation) (bare values.now))) redo.new) }
{
    let mut refs = [0u16; layout::FIELDS * layout::MOST_RECORDS];
    let mut stands = [0u8; layout::MOST_RECORDS];
    let mut marks = [0u8; layout::MOST_RECORDS];
    let s = edit_first::survey(t, &mut refs, &mut stands, &mut marks);
    check_insertion(s, relation, values, redo)
}

// What an insertion answers, but for the new label; the marks of the records to be redone, where it is accepted.
pub fn judge_insertion(
    schema: &[u64],
    own: &[u64],
    delta: &[u64],
    relation: usize,
    values: &[u64],
    redo: &mut [u8],
) -> Result<(), Refusal>
    requires { most_records ≡ length redo.old }
    ensures number { number_of result ≡ insertion_number schema.now own.now delta.now relation values.now }
    ensures redone { IfOk result (λ _. Picked own.now (odd (held own.now) (leads is_reference (kinds_of schema.now relation) (bare values.now))) redo.new) }
{
    let t = edit_first::first_checks(schema, own, delta, false)?;
    insertion_checks(t, relation, values, redo)
}
