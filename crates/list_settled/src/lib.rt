// Step 4 of the shown list over resolved references, on one mark per record.
#![tactic(auto)]

ghost use Rattle.std.specs.Prelude.{◌≡◌, ◌+◌, ◌*◌, ◌-◌, ◌≤◌, length};
ghost use Rattle.model.specs.Layout.{fields, used_at};
ghost use Rattle.model.specs.Schemas.{schema_of};
ghost use Rattle.model.specs.Records.{in_order};
ghost use Rattle.model.specs.Tables.{decode};
ghost use Rattle.model.specs.Shown.{standing, kept, shown};
ghost use Rattle.references.specs.Resolved.{Marked};
ghost use Rattle.list_settled.specs.Rounds.{leads_on, grounded_at, drops_at, dropped_at, round_of, drops_any};

use references::Resolved;

// Whether a resolved reference is empty or leads to a marked record.
fn leads_on(marks: &[u8], p: u16) -> bool
    ensures { result ≡ leads_on marks.now p }
{
    let found = marks::is_marked(marks, usize::from(p));
    (p == 0) | ((p != references::ABSENT) & found)
}

// Whether every reference of record `i` leads to a marked record.
fn is_grounded(refs: &[u16], marks: &[u8], i: usize) -> bool
    requires { (1 ≤ i) × (fields * i ≤ length refs.now) }
    ensures { result ≡ grounded_at refs.now marks.now i }
{
    let from = layout::FIELDS * (i - 1);
    let mut good = true;
    for j in 0..layout::FIELDS {
        good &= leads_on(marks, refs[from + j]);
    }
    good
}

// Whether record `i` is to be dropped.
#[tactic(auto, unfolding(crate::specs::Rounds::drops_at))]
fn is_dropped(refs: &[u16], marks: &[u8], i: usize) -> bool
    requires { (1 ≤ i) × (fields * i ≤ length refs.now) }
    ensures { result ≡ drops_at refs.now marks.now i }
{
    marks::is_marked(marks, i) && !is_grounded(refs, marks, i)
}

// Drops record `i` if it has a reference that leads to no marked record.
#[tactic(auto, unfolding(crate::specs::Rounds::dropped_at))]
fn drop_record(refs: &[u16], marks: &mut [u8], i: usize) -> bool
    requires { (1 ≤ i) × (i ≤ length marks.old) × (fields * i ≤ length refs.now) }
    ensures { (result ≡ drops_at refs.now marks.old i) × (marks.new ≡ dropped_at refs.now marks.old i) }
{
    let dropped = is_dropped(refs, marks, i);
    if dropped {
        marks[i - 1] = 0;
    }
    dropped
}

// One round over the records: whether it dropped any.
fn round(refs: &[u16], marks: &mut [u8], used: usize) -> bool
    requires { (used ≤ length marks.old) × (fields * used ≤ length refs.now) }
    ensures { (result ≡ drops_any refs.now marks.old used) × (marks.new ≡ round_of refs.now marks.old used) }
{
    let mut any = false;
    for i in 0..used {
        any |= drop_record(refs, marks, i + 1);
    }
    any
}

// Step 4: rounds until one drops nothing. The references are resolved.
pub fn settle(resolved: Resolved<'_>, marks: &mut [u8])
    requires { Marked resolved.t.table.now (kept (schema_of resolved.t.schema.now) (standing (schema_of resolved.t.schema.now) (in_order (decode resolved.t.table.now).records))) marks.old × (used_at resolved.t.table.now ≤ length marks.old) }
    ensures { Marked resolved.entry.t.table.now (shown (schema_of resolved.entry.t.schema.now) (in_order (decode resolved.entry.t.table.now).records)) marks.new }
{
    let used = layout::used(resolved.t.table);
    while round(resolved.refs, marks, used) {}
}
