// The checks of an update, in number order, and the marks of the records that it redoes.
#![tactic(auto)]

ghost use Rattle.std.specs.Prelude.{◌≡◌, ◌≤◌, ◌*◌, length, IfOk};
ghost use Rattle.crdt.specs.Cells.{reg};
ghost use Rattle.answers.specs.Refused.{number_of};
ghost use Rattle.model.specs.Layout.{fields, most_records, relation_at, kind_at, value_at};
ghost use Rattle.model.specs.Lists.{some_of, lowest};
ghost use Rattle.model.specs.Schemas.{schema_of};
ghost use Rattle.model.specs.Records.{Rec};
ghost use Rattle.model.specs.Tables.{decode, record_of};
ghost use Rattle.model.specs.Shown.{described, standing};
ghost use Rattle.model.specs.Edits.{new_label, with_register, update_conflict, update_redoes};
ghost use Rattle.model.specs.Calls.{update_of, update_number};
ghost use Rattle.references.specs.Resolved.{Marked};
ghost use Rattle.edit_delta.specs.Picked.{Picked};
ghost use Rattle.edit_basics.specs.Targets.{held, Placed};
ghost use Rattle.edit_laws.specs.Clash.{narrowed, Renewed};

use answers::Refusal;
use crdt::Label;
use edit_basics::Surveyed;
use judged::Judged;

// A key mask, 0 where it does not name field `f`.
fn narrow(mask: u64, f: usize) -> u64
    requires { (1 ≤ f) × (f ≤ fields) }
    ensures { result ≡ narrowed mask f }
{
    if (mask >> (f - 1)) % 2 == 1 { mask } else { 0 }
}

// The values of record `i` with a new value in field `f`.
fn renew(table: &[u64], i: usize, f: usize, new: u64) -> [u64; layout::FIELDS]
    ensures { Renewed table.now i f new result }
{
    let mut values = [0u64; layout::FIELDS];
    for (j, value) in values.iter_mut().enumerate() {
        *value = if j + 1 == f {
            new
        } else {
            layout::value_at(table, i, j + 1)
        };
    }
    values
}

// Whether another standing record would conflict with record `i` on a key that names field `f`, were the new value there.
pub fn is_update_taken(t: Judged<'_>, stands: &[u8], i: usize, f: usize, new: u64) -> bool
    requires { Placed t.schema.now t.table.now i × Marked t.table.now (standing (schema_of t.schema.now) (held t.table.now)) stands.now × (1 ≤ f) × (f ≤ fields) }
    ensures { result ≡ some_of (λ (z : Rec). update_conflict (schema_of t.entry.schema.now) (described (schema_of t.entry.schema.now) (record_of t.entry.table.now i)) f z (with_register (record_of t.entry.table.now i) f (reg new (new_label (decode t.entry.table.now))))) (standing (schema_of t.entry.schema.now) (held t.entry.table.now)) }
{
    let renewed = renew(t.table, i, f, new);
    let r = layout::relation_at(t.table, i);
    let first = narrow(layout::mask_at(t.schema, r, 1), f);
    let second = narrow(layout::mask_at(t.schema, r, 2), f);
    edit_conflicts::is_taken(t, stands, r, first, second, i, &renewed)
}

// Checks 6 to 13 of the update of field `f` of record `i`; the marks of the records to be redone, where none applies.
fn check_update(
    s: Surveyed<'_>,
    i: usize,
    f: usize,
    new: u64,
    redo: &mut [u8],
) -> Result<(), Refusal>
    requires { Placed s.t.schema.now s.t.table.now i × (most_records ≡ length redo.old) }
    ensures number { number_of result ≡ lowest (update_of s.entry.t.schema.now s.entry.t.table.now i f new).checks }
    ensures redone { IfOk result (λ _. Picked s.entry.t.table.now (update_redoes (schema_of s.entry.t.schema.now) (held s.entry.t.table.now) (record_of s.entry.t.table.now i) (kind_at s.entry.t.schema.now (relation_at s.entry.t.table.now i) f) (value_at s.entry.t.table.now i f) new) redo.new) }
{
    if !marks::is_marked(s.marks, i) {
        return Err(Refusal::NotShown);
    }
    if f < 1 {
        return Err(Refusal::BadValue);
    }
    let r = layout::relation_at(s.t.table, i);
    if layout::field_count(s.t.schema, r) < f {
        return Err(Refusal::BadValue);
    }
    let kind = layout::kind_at(s.t.schema, r, f);
    if !edit_targets::value_rule(kind, new) {
        return Err(Refusal::BadValue);
    }
    if !edit_targets::target_shown(s, kind, new) {
        return Err(Refusal::TargetHidden);
    }
    if is_update_taken(s.t, s.stands, i, f, new) {
        return Err(Refusal::KeyTaken);
    }
    if layout::clock(s.t.table) == Label::LARGEST_COUNTER {
        return Err(Refusal::ClockSpent);
    }
    let old = layout::value_at(s.t.table, i, f);
    edit_redo::mark_update(s, i, kind, old, new, redo);
    if edit_redo::is_spent(s.t, redo) {
        return Err(Refusal::FlagSpent);
    }
    Ok(())
}

// Checks 6 to 13 of an update of a judged table; the marks of the records to be redone, where none applies.
fn update_checks(
    t: Judged<'_>,
    index: usize,
    field: usize,
    value: u64,
    redo: &mut [u8],
) -> Result<(), Refusal>
    requires { Placed t.schema.now t.table.now index × (most_records ≡ length redo.old) }
    ensures number { number_of result ≡ lowest (update_of t.entry.schema.now t.entry.table.now index field value).checks }
    ensures redone { IfOk result (λ _. Picked t.entry.table.now (update_redoes (schema_of t.entry.schema.now) (held t.entry.table.now) (record_of t.entry.table.now index) (kind_at t.entry.schema.now (relation_at t.entry.table.now index) field) (value_at t.entry.table.now index field) value) redo.new) }
{
    let mut refs = [0u16; layout::FIELDS * layout::MOST_RECORDS];
    let mut stands = [0u8; layout::MOST_RECORDS];
    let mut marks = [0u8; layout::MOST_RECORDS];
    let s = edit_first::survey(t, &mut refs, &mut stands, &mut marks);
    check_update(s, index, field, value, redo)
}

// What an update answers; the marks of the records to be redone, where it is accepted.
pub fn judge_update(
    schema: &[u64],
    own: &[u64],
    delta: &[u64],
    index: usize,
    field: usize,
    value: u64,
    redo: &mut [u8],
) -> Result<(), Refusal>
    requires { most_records ≡ length redo.old }
    ensures number { number_of result ≡ update_number schema.now own.now delta.now index field value }
    ensures redone { IfOk result (λ _. Picked own.now (update_redoes (schema_of schema.now) (held own.now) (record_of own.now index) (kind_at schema.now (relation_at own.now index) field) (value_at own.now index field) value) redo.new) }
{
    let t = edit_first::first_checks(schema, own, delta, layout::bad_index(own, index))?;
    update_checks(t, index, field, value, redo)
}
