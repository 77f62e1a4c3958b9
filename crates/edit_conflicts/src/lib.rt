// Key conflicts and references by abort among the standing records of a judged table: what the checks of the three edits share.
#![tactic(auto)]

ghost use Rattle.std.specs.Prelude.{◌≡◌, Bool, ◌&&◌, not, ℕ, ◌≤◌, eqb, length};
ghost use Rattle.model.specs.Layout.{fields, used_at};
ghost use Rattle.model.specs.Lists.{some_of};
ghost use Rattle.model.specs.Schemas.{is_abort, schema_of};
ghost use Rattle.model.specs.Records.{Rec};
ghost use Rattle.model.specs.Tables.{record_of};
ghost use Rattle.model.specs.Shown.{references, standing};
ghost use Rattle.references.specs.Resolved.{Marked};
ghost use Rattle.marks.specs.Marks.{is_marked};
ghost use Rattle.edit_basics.specs.Targets.{held, Placed};
ghost use Rattle.edit_laws.specs.Clash.{clashes};

use edit_basics::Surveyed;
use judged::Judged;

// Whether record `y` stands, is of relation `r` and not record `but`, and conflicts with the values lent on one of two keys.
fn takes(
    t: Judged<'_>,
    stands: &[u8],
    r: usize,
    first: u64,
    second: u64,
    but: usize,
    values: &[u64],
    y: usize,
) -> bool
    requires { Placed t.schema.now t.table.now y × (length values.now ≡ fields) }
    ensures { result ≡ (is_marked stands.now y && clashes t.entry.schema.now t.entry.table.now r first second but values.now y) }
{
    if !marks::is_marked(stands, y) {
        return false;
    }
    if y == but {
        return false;
    }
    if layout::relation_at(t.table, y) != r {
        return false;
    }
    list_conflicts::conflicts_on(t, first, y, values)
        | list_conflicts::conflicts_on(t, second, y, values)
}

// Whether a standing record of relation `r`, other than record `but`, conflicts with the values lent on one of two keys.
pub fn is_taken(
    t: Judged<'_>,
    stands: &[u8],
    r: usize,
    first: u64,
    second: u64,
    but: usize,
    values: &[u64],
) -> bool
    requires { Marked t.table.now (standing (schema_of t.schema.now) (held t.table.now)) stands.now × (length values.now ≡ fields) }
    ensures { (p : Rec → Bool) → ((y : ℕ) → 1 ≤ y → y ≤ used_at t.entry.table.now → p (record_of t.entry.table.now y) ≡ clashes t.entry.schema.now t.entry.table.now r first second but values.now y) → result ≡ some_of p (standing (schema_of t.entry.schema.now) (held t.entry.table.now)) }
{
    (1..=layout::used(t.table)).any(|y| takes(t, stands, r, first, second, but, values, y))
}

// Whether record `y` stands, is not record `i`, and references it by abort.
fn holds(s: Surveyed<'_>, stands: &[u8], i: usize, y: usize) -> bool
    requires { Placed s.t.schema.now s.t.table.now i × Placed s.t.schema.now s.t.table.now y }
    ensures { result ≡ (is_marked stands.now y && (not (eqb (record_of s.entry.t.table.now y).key (record_of s.entry.t.table.now i).key) && references (schema_of s.entry.t.schema.now) is_abort (record_of s.entry.t.table.now i).key (record_of s.entry.t.table.now y))) }
{
    if !marks::is_marked(stands, y) {
        return false;
    }
    if y == i {
        return false;
    }
    edit_targets::aborts(s, y, i)
}

// Whether another standing record references record `i` by abort.
pub fn is_held(s: Surveyed<'_>, stands: &[u8], i: usize) -> bool
    requires { Placed s.t.schema.now s.t.table.now i × Marked s.t.table.now (standing (schema_of s.t.schema.now) (held s.t.table.now)) stands.now }
    ensures { result ≡ some_of (λ (y : Rec). not (eqb y.key (record_of s.entry.t.table.now i).key) && references (schema_of s.entry.t.schema.now) is_abort (record_of s.entry.t.table.now i).key y) (standing (schema_of s.entry.t.schema.now) (held s.entry.t.table.now)) }
{
    (1..=layout::used(s.t.table)).any(|y| holds(s, stands, i, y))
}
