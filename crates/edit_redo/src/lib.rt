// The records that an edit redoes, as one mark for each record: 1 for those to be redone and 0 for the others.
#![tactic(auto)]

ghost use Rattle.std.specs.Prelude.{◌≡◌, Bool, true, cond, ◌&&◌, not, List, ℕ, ◌≤◌, ◌-◌, eqb, length, get_or};
ghost use Rattle.crdt.specs.Flags.{largest_flag};
ghost use Rattle.model.specs.Layout.{most_records, used_at, flag_at};
ghost use Rattle.model.specs.Lists.{some_of};
ghost use Rattle.model.specs.Schemas.{is_reference, schema_of};
ghost use Rattle.model.specs.Tables.{record_of};
ghost use Rattle.model.specs.Shown.{leads, references, live};
ghost use Rattle.model.specs.Edits.{value_rule, values_rule, odd, spent, supported, update_redoes, deletion_redoes};
ghost use Rattle.marks.specs.Marks.{is_marked};
ghost use Rattle.edit_delta.specs.Picked.{Picked};
ghost use Rattle.edit_basics.specs.Targets.{kinds_of, bare, held, Placed};

use edit_basics::Surveyed;
use judged::Judged;

// Whether record `y` is complete and even, is not record `but`, and references record `p`.
fn supports(s: Surveyed<'_>, but: usize, y: usize, p: usize) -> bool
    requires { Placed s.t.schema.now s.t.table.now but × Placed s.t.schema.now s.t.table.now y × Placed s.t.schema.now s.t.table.now p }
    ensures { result ≡ (not (eqb (record_of s.entry.t.table.now y).key (record_of s.entry.t.table.now but).key) && live (schema_of s.entry.t.schema.now) (record_of s.entry.t.table.now y) && references (schema_of s.entry.t.schema.now) is_reference (record_of s.entry.t.table.now p).key (record_of s.entry.t.table.now y)) }
{
    if y == but {
        return false;
    }
    if !list_standing::is_live(s.t, y) {
        return false;
    }
    edit_targets::refers(s, y, p)
}

// Whether a complete even record other than record `but` references record `p`.
fn is_supported(s: Surveyed<'_>, but: usize, p: usize) -> bool
    requires { Placed s.t.schema.now s.t.table.now but × Placed s.t.schema.now s.t.table.now p }
    ensures { result ≡ supported (schema_of s.entry.t.schema.now) (held s.entry.t.table.now) (record_of s.entry.t.table.now but).key (record_of s.entry.t.table.now p).key }
{
    (1..=layout::used(s.t.table)).any(|y| supports(s, but, y, p))
}

// Marks the records that a test picks.
fn mark_picked<F: Fn(usize) -> bool>(table: &[u64], picks: F, redo: &mut [u8])
    requires callable { (i : ℕ) → 1 ≤ i → i ≤ used_at table.now → F.pre picks i }
    requires long { used_at table.now ≤ length redo.old }
    ensures { (i : ℕ) → 1 ≤ i → i ≤ used_at table.now → (b : Bool) × F.post picks i b × (get_or redo.new (i - 1) 0 ≡ cond b 1 0) }
{
    for i in 0..layout::used(table) {
        redo[i] = u8::from(picks(i + 1));
    }
}

// Whether an insertion redoes record `i`: it is a target with an odd flag.
fn insertion_picks(t: Judged<'_>, r: usize, values: &[u64], i: usize) -> bool
    requires { Placed t.schema.now t.table.now i × (values_rule (kinds_of t.schema.now r) values.now ≡ true) }
    ensures { result ≡ some_of (λ k. eqb (record_of t.entry.table.now i).key k) (odd (held t.entry.table.now) (leads is_reference (kinds_of t.entry.schema.now r) (bare values.now))) }
{
    if layout::flag_at(t.table, i) % 2 == 1 {
        return edit_targets::lead_to(t, r, values, i);
    }
    false
}

// Marks the records that an insertion redoes.
pub fn mark_insertion(t: Judged<'_>, r: usize, values: &[u64], redo: &mut [u8])
    requires { (values_rule (kinds_of t.schema.now r) values.now ≡ true) × (most_records ≡ length redo.old) }
    ensures { Picked t.entry.table.now (odd (held t.entry.table.now) (leads is_reference (kinds_of t.entry.schema.now r) (bare values.now))) redo.new }
{
    mark_picked(t.table, |i| insertion_picks(t, r, values, i), redo);
}

// Whether the update of a field of record `i` redoes record `p`: it has an odd flag, and is the new target, or the old one by abort
// that another record supports.
fn update_picks(s: Surveyed<'_>, i: usize, kind: u64, old: u64, new: u64, p: usize) -> bool
    requires { Placed s.t.schema.now s.t.table.now i × Placed s.t.schema.now s.t.table.now p × (value_rule kind old ≡ true) × (value_rule kind new ≡ true) }
    ensures { result ≡ some_of (λ k. eqb (record_of s.entry.t.table.now p).key k) (update_redoes (schema_of s.entry.t.schema.now) (held s.entry.t.table.now) (record_of s.entry.t.table.now i) kind old new) }
{
    if layout::flag_at(s.t.table, p) % 2 == 0 {
        return false;
    }
    if edit_targets::leads_to(s.t, kind, new, p) {
        return true;
    }
    if layout::PROPAGATION <= kind {
        return false;
    }
    if old == new {
        return false;
    }
    if edit_targets::leads_to(s.t, kind, old, p) {
        return is_supported(s, i, p);
    }
    false
}

// Marks the records that the update of a field redoes.
pub fn mark_update(s: Surveyed<'_>, i: usize, kind: u64, old: u64, new: u64, redo: &mut [u8])
    requires { Placed s.t.schema.now s.t.table.now i × (value_rule kind old ≡ true) × (value_rule kind new ≡ true) × (most_records ≡ length redo.old) }
    ensures { Picked s.entry.t.table.now (update_redoes (schema_of s.entry.t.schema.now) (held s.entry.t.table.now) (record_of s.entry.t.table.now i) kind old new) redo.new }
{
    mark_picked(s.t.table, |p| update_picks(s, i, kind, old, new, p), redo);
}

// Whether the deletion of record `i` redoes record `p`: it is another one with an odd flag that it references by abort, and that
// another record supports.
fn deletion_picks(s: Surveyed<'_>, i: usize, p: usize) -> bool
    requires { Placed s.t.schema.now s.t.table.now i × Placed s.t.schema.now s.t.table.now p }
    ensures { result ≡ some_of (λ k. eqb (record_of s.entry.t.table.now p).key k) (deletion_redoes (schema_of s.entry.t.schema.now) (held s.entry.t.table.now) (record_of s.entry.t.table.now i)) }
{
    if layout::flag_at(s.t.table, p) % 2 != 1 {
        return false;
    }
    if p == i {
        return false;
    }
    if !edit_targets::aborts(s, i, p) {
        return false;
    }
    is_supported(s, i, p)
}

// Marks the records that a deletion redoes.
pub fn mark_deletion(s: Surveyed<'_>, i: usize, redo: &mut [u8])
    requires { Placed s.t.schema.now s.t.table.now i × (most_records ≡ length redo.old) }
    ensures { Picked s.entry.t.table.now (deletion_redoes (schema_of s.entry.t.schema.now) (held s.entry.t.table.now) (record_of s.entry.t.table.now i)) redo.new }
{
    mark_picked(s.t.table, |p| deletion_picks(s, i, p), redo);
}

fn flag_spent(table: &[u64], redo: &[u8], i: usize) -> bool
    ensures { result ≡ (is_marked redo.now i && eqb (flag_at table.now i) largest_flag) }
{
    marks::is_marked(redo, i) & (layout::flag_at(table, i) == crdt::LARGEST_FLAG)
}

// Whether a flag to be redone is 65,535.
pub fn is_spent(t: Judged<'_>, redo: &[u8]) -> bool
    ensures { (ks : List ℕ) → Picked t.entry.table.now ks redo.now → result ≡ spent (held t.entry.table.now) ks }
{
    (1..=layout::used(t.table)).any(|i| flag_spent(t.table, redo, i))
}
