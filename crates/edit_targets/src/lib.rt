// Where references lead: the values that a call is lent, and the references of a table's records.
#![tactic(auto)]

ghost use Rattle.std.specs.Prelude.{◌≡◌, Bool, true, ℕ, ◌&&◌, ◌≤◌, ◌<◌, ◌+◌, ◌*◌, ◌^◌, eqb, ltb, IfSome, IfNone};
ghost use Rattle.model.specs.Layout.{label_at};
ghost use Rattle.model.specs.Lists.{all_of, some_of};
ghost use Rattle.model.specs.Schemas.{is_reference, is_abort, schema_of};
ghost use Rattle.model.specs.Records.{label_span, place, has, position};
ghost use Rattle.model.specs.Tables.{decode, record_of};
ghost use Rattle.model.specs.Shown.{leads, references, shown};
ghost use Rattle.model.specs.Edits.{value_rule, values_rule, leading};
ghost use Rattle.edit_basics.specs.Targets.{kinds_of, bare, held, Placed};

use crdt::Label;
use edit_basics::Surveyed;
use judged::Judged;

// Whether a chain goes on from record `i` before a label.
fn precedes(table: &[u64], i: usize, label: u64) -> bool
    ensures { result ≡ (ltb 0 i && ltb (label_at table.now i) label) }
{
    (0 < i) & (layout::label_at(table, i) < label)
}

// The position of the record of relation `r` with that label, if there is one: by the chain, whose labels rise.
pub fn find(t: Judged<'_>, r: usize, label: u64) -> Option<usize>
    requires { label < label_span }
    ensures found { IfSome result (λ i. (1 ≤ i) × (i ≡ position (place r label) (decode t.entry.table.now).records)) }
    ensures missing { IfNone result (0 ≡ position (place r label) (decode t.entry.table.now).records) }
{
    if r < 1 {
        return None;
    }
    if layout::MOST_RELATIONS < r {
        return None;
    }
    let mut i = layout::first_at(t.table, r);
    while precedes(t.table, i, label) {
        i = layout::next_at(t.table, i);
    }
    if i == 0 {
        return None;
    }
    if layout::label_at(t.table, i) == label {
        return Some(i);
    }
    None
}

// Whether a kind is one of a reference.
fn is_reference(kind: u64) -> bool
    ensures { result ≡ is_reference kind }
{
    layout::ABORT <= kind
}

// Whether a kind is one of a reference by abort.
fn is_abort(kind: u64) -> bool
    ensures { result ≡ is_abort kind }
{
    (layout::ABORT <= kind) & (kind < layout::PROPAGATION)
}

// Whether a value may stand under a kind: a reference is 0 or a label.
pub fn value_rule(kind: u64, v: u64) -> bool
    ensures { result ≡ value_rule kind v }
{
    !is_reference(kind) | (v == 0) | Label::is_label(v)
}

// Whether values are one for each field of relation `r`, and may stand there.
pub fn values_rule(schema: &[u64], r: usize, values: &[u64]) -> bool
    ensures { result ≡ values_rule (kinds_of schema.now r) values.now }
{
    if values.len() != layout::field_count(schema, r) {
        return false;
    }
    for j in 0..values.len() {
        if !value_rule(layout::kind_at(schema, r, j + 1), values[j]) {
            return false;
        }
    }
    true
}

// Whether a value under a kind is no reference, or empty, or leads to a shown record.
pub fn target_shown(s: Surveyed<'_>, kind: u64, value: u64) -> bool
    requires { value_rule kind value ≡ true }
    ensures { result ≡ all_of (has (shown (schema_of s.entry.t.schema.now) (held s.entry.t.table.now))) (leading is_reference kind value) }
{
    if !is_reference(kind) {
        return true;
    }
    if value == 0 {
        return true;
    }
    find(s.t, (kind % layout::ABORT) as usize, value).is_some_and(|i| marks::is_marked(s.marks, i))
}

// Whether all nonempty references of the values lead to shown records.
pub fn targets_shown(s: Surveyed<'_>, r: usize, values: &[u64]) -> bool
    requires { values_rule (kinds_of s.t.schema.now r) values.now ≡ true }
    ensures { result ≡ all_of (has (shown (schema_of s.entry.t.schema.now) (held s.entry.t.table.now))) (leads is_reference (kinds_of s.entry.t.schema.now r) (bare values.now)) }
{
    for j in 0..values.len() {
        if !target_shown(s, layout::kind_at(s.t.schema, r, j + 1), values[j]) {
            return false;
        }
    }
    true
}

// Whether a value under a kind is a reference that leads to record `i`.
pub fn leads_to(t: Judged<'_>, kind: u64, value: u64, i: usize) -> bool
    requires { Placed t.schema.now t.table.now i × (value_rule kind value ≡ true) }
    ensures { result ≡ some_of (λ k. eqb (record_of t.entry.table.now i).key k) (leading is_reference kind value) }
{
    let there = (layout::relation_at(t.table, i) as u64 == kind % layout::ABORT)
        & (layout::label_at(t.table, i) == value);
    is_reference(kind) & (value != 0) & there
}

// Whether one of the values is a reference that leads to record `i`.
pub fn lead_to(t: Judged<'_>, r: usize, values: &[u64], i: usize) -> bool
    requires { Placed t.schema.now t.table.now i × (values_rule (kinds_of t.schema.now r) values.now ≡ true) }
    ensures { result ≡ some_of (λ k. eqb (record_of t.entry.table.now i).key k) (leads is_reference (kinds_of t.entry.schema.now r) (bare values.now)) }
{
    for j in 0..values.len() {
        if leads_to(t, layout::kind_at(t.schema, r, j + 1), values[j], i) {
            return true;
        }
    }
    false
}

// Whether record `i` has a reference that leads to record `p`, of a kind that is chosen.
fn refers_by<F: Fn(u64) -> bool>(s: Surveyed<'_>, i: usize, p: usize, is_chosen: F) -> bool
    ghost q: { ℕ → Bool }
    requires callable { F.IsAlwaysCallable is_chosen }
    requires chosen { (k : ℕ) (b : Bool) → k < 2 ^ 64 → F.post is_chosen k b → b ≡ q k }
    requires only { (k : ℕ) → q k ≡ true → is_reference k ≡ true }
    requires placed { Placed s.t.schema.now s.t.table.now i × Placed s.t.schema.now s.t.table.now p }
    ensures { result ≡ references (schema_of s.entry.t.schema.now) q (record_of s.entry.t.table.now p).key (record_of s.entry.t.table.now i) }
{
    let r = layout::relation_at(s.t.table, i);
    for j in 0..layout::field_count(s.t.schema, r) {
        let at = layout::FIELDS * (i - 1) + j;
        if s.refs[at] as usize == p && is_chosen(layout::kind_at(s.t.schema, r, j + 1)) {
            return true;
        }
    }
    false
}

// Whether record `i` has a reference that leads to record `p`.
pub fn refers(s: Surveyed<'_>, i: usize, p: usize) -> bool
    requires { Placed s.t.schema.now s.t.table.now i × Placed s.t.schema.now s.t.table.now p }
    ensures { result ≡ references (schema_of s.entry.t.schema.now) is_reference (record_of s.entry.t.table.now p).key (record_of s.entry.t.table.now i) }
{
    refers_by(s, i, p, is_reference)
}

// Whether record `i` has a reference by abort that leads to record `p`.
pub fn aborts(s: Surveyed<'_>, i: usize, p: usize) -> bool
    requires { Placed s.t.schema.now s.t.table.now i × Placed s.t.schema.now s.t.table.now p }
    ensures { result ≡ references (schema_of s.entry.t.schema.now) is_abort (record_of s.entry.t.table.now p).key (record_of s.entry.t.table.now i) }
{
    refers_by(s, i, p, is_abort)
}
