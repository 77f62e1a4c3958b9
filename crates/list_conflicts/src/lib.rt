// The key comparison: whether two records conflict on a key.
#![tactic(auto)]

ghost use Rattle.std.specs.Prelude.{◌≡◌, ◌||◌, ◌&&◌, not, ◌+◌, ◌-◌, ◌%◌, ◌≤◌, ◌<◌, eqb, length};
ghost use Rattle.model.specs.Layout.{fields, head_words, base, used_at, relation_at, field_count, kind_at};
ghost use Rattle.model.specs.Lists.{listed};
ghost use Rattle.model.specs.Schemas.{is_reference, schema_of};
ghost use Rattle.model.specs.Tables.{record_of};
ghost use Rattle.model.specs.Shown.{equal_on, conflict_on};
ghost use Rattle.list_conflicts.specs.Keys.{registers, values_conflict, values_at};

use judged::Judged;

// Whether a field keeps two records in conflict: it is none of the key's, or its values are equal and no empty reference. The
// lowest bit of `mask` says whether it is one of the key's.
fn agrees(mask: u64, kind: u64, a: u64, b: u64) -> bool
    ensures { result ≡ (eqb (mask % 2) 0 || (eqb a b && not (is_reference kind && eqb a 0))) }
{
    (mask % 2 == 0) | ((a == b) & !((layout::ABORT <= kind) & (a == 0)))
}

// Whether values of relation `r` are equal on the fields of a key.
fn equal_on(schema: &[u64], r: usize, mask: u64, a: &[u64], b: &[u64]) -> bool
    requires { (length a.now ≡ fields) × (length b.now ≡ fields) × (field_count schema.now r ≤ fields) }
    ensures { result ≡ equal_on mask (listed (field_count schema.now r) (kind_at schema.now r)) (registers a.now) (registers b.now) }
{
    let mut m = mask;
    for j in 0..layout::field_count(schema, r) {
        if !agrees(m, layout::kind_at(schema, r, j + 1), a[j], b[j]) {
            return false;
        }
        m /= 2;
    }
    true
}

// Whether values of relation `r` conflict on a key; mask 0 is no key.
pub fn conflict(schema: &[u64], r: usize, mask: u64, a: &[u64], b: &[u64]) -> bool
    requires { (length a.now ≡ fields) × (length b.now ≡ fields) × (field_count schema.now r ≤ fields) }
    ensures { result ≡ values_conflict schema.now r mask a.now b.now }
{
    if mask == 0 {
        return false;
    }
    equal_on(schema, r, mask, a, b)
}

// Where the values of record `i` begin.
pub fn values_start(t: Judged<'_>, i: usize) -> usize
    requires { (1 ≤ i) × (i ≤ used_at t.table.now) }
    ensures start { result ≡ base i + head_words }
    ensures within { result + fields ≤ length t.entry.table.now }
{
    layout::base(i) + layout::HEAD_WORDS
}

// Whether record `i` conflicts on a key with the values lent.
pub fn conflicts_on(t: Judged<'_>, mask: u64, i: usize, values: &[u64]) -> bool
    requires { (1 ≤ i) × (i ≤ used_at t.table.now) × (length values.now ≡ fields) }
    ensures { result ≡ values_conflict t.entry.schema.now (relation_at t.entry.table.now i) mask (values_at t.entry.table.now i) values.now }
{
    let a = values_start(t, i);
    let r = layout::relation_at(t.table, i);
    conflict(t.schema, r, mask, &t.table[a..a + layout::FIELDS], values)
}

// Whether records `i` and `j` conflict on a key of the relation of record `i`.
pub fn records_conflict(t: Judged<'_>, mask: u64, i: usize, j: usize) -> bool
    requires { (1 ≤ i) × (i ≤ used_at t.table.now) × (1 ≤ j) × (j ≤ used_at t.table.now) }
    ensures { result ≡ conflict_on (schema_of t.entry.schema.now) mask (record_of t.entry.table.now i) (record_of t.entry.table.now j) }
{
    let b = values_start(t, j);
    conflicts_on(t, mask, i, &t.table[b..b + layout::FIELDS])
}
