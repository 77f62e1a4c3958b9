// Steps 3 and 4 of the shown list over resolved references, and the shown marks of a table.
#![tactic(auto)]

ghost use Rattle.std.specs.Prelude.{◌≡◌, ◌++◌, ◌*◌, ◌-◌, ◌≤◌, length, take, replicate};
ghost use Rattle.answers.specs.Told.{told};
ghost use Rattle.answers.specs.Refused.{value_told};
ghost use Rattle.model.specs.Layout.{used_at};
ghost use Rattle.model.specs.Schemas.{schema_of};
ghost use Rattle.model.specs.Records.{in_order};
ghost use Rattle.model.specs.Tables.{decode};
ghost use Rattle.model.specs.Shown.{standing, shown};
ghost use Rattle.model.specs.Calls.{marks_number, marks_count, marks_marks};
ghost use Rattle.references.specs.Resolved.{Marked};
ghost use Rattle.list_settled.specs.Rounds.{ones};

use answers::Refusal;
use judged::Judged;
use references::Resolved;

// Steps 3 and 4: from resolved references and the marks of the standing records, the marks of the shown ones.
pub fn show(resolved: Resolved<'_>, stands: &[u8], marks: &mut [u8])
    requires { Marked resolved.t.table.now (standing (schema_of resolved.t.schema.now) (in_order (decode resolved.t.table.now).records)) stands.now × (used_at resolved.t.table.now ≤ length marks.old) }
    ensures { Marked resolved.entry.t.table.now (shown (schema_of resolved.entry.t.schema.now) (in_order (decode resolved.entry.t.table.now).records)) marks.new }
{
    list_keys::keep(resolved.t, stands, marks);
    list_settled::settle(resolved, marks);
}

// Marks above the used records set to 0.
fn clear_above(marks: &mut [u8], used: usize)
    requires { used ≤ length marks.old }
    ensures { marks.new ≡ take used marks.old ++ replicate (length marks.old - used) 0 }
{
    marks[used..].fill(0);
}

// How many marks are 1.
#[tactic(auto, using(crate::proofs::Counted::ones_count))]
fn count(marks: &[u8]) -> usize
    ensures { result ≡ ones marks.now }
{
    marks.iter().filter(|m| **m == 1).count()
}

// Steps 1 to 4 for a table that is judged already.
pub fn mark_shown(t: Judged<'_>, marks: &mut [u8])
    requires { used_at t.table.now ≤ length marks.old }
    ensures { Marked t.entry.table.now (shown (schema_of t.entry.schema.now) (in_order (decode t.entry.table.now).records)) marks.new }
{
    let mut refs = [0u16; layout::FIELDS * layout::MOST_RECORDS];
    let mut stands = [0u8; layout::MOST_RECORDS];
    references::resolve(t, &mut refs);
    let resolved = Resolved { t, refs: &refs };
    list_standing::stand(resolved, &mut stands);
    show(resolved, &stands, marks);
}

// The shown marks of a table, and how many records are shown.
pub fn marks(schema: &[u64], table: &[u64], marks: &mut [u8]) -> Result<usize, Refusal>
    ensures { (value_told result ≡ told (marks_number schema.now table.now marks.old) (marks_count schema.now table.now marks.old)) × (marks.new ≡ marks_marks schema.now table.now marks.old) }
{
    let lengths = layout::schema_length(schema)
        & layout::table_length(table)
        & layout::marks_length(table, marks);
    if !lengths {
        return Err(Refusal::WrongLength);
    }
    let t = judged::judge(schema, table)?;
    mark_shown(t, marks);
    clear_above(marks, layout::used(table));
    Ok(count(marks))
}
