// The herd book's search for a shown milking.
#![tactic(auto)]

ghost use Rattle.std.specs.Prelude.{◌≡◌, not, eqb, ◌≤◌};
ghost use Rattle.answers.specs.Told.{told_known};
ghost use Rattle.answers.specs.Refused.{known_told};
ghost use Rattle.model.specs.Layout.{used_at};
ghost use Rattle.model.specs.Schemas.{schema_of};
ghost use Rattle.model.specs.Records.{has, in_order};
ghost use Rattle.model.specs.Tables.{decode, record_of};
ghost use Rattle.model.specs.Shown.{shown};
ghost use Rattle.model.specs.Book.{find_number, find_index};

use answers::Refusal;
use crdt::Label;
use judged::Judged;

// Whether record `i` is shown.
fn is_shown(t: Judged<'_>, i: usize) -> bool
    requires { (1 ≤ i) × (i ≤ used_at t.table.now) }
    ensures { result ≡ has (shown (schema_of t.entry.schema.now) (in_order (decode t.entry.table.now).records)) (record_of t.entry.table.now i).key }
{
    let mut marks = [0u8; layout::MOST_RECORDS];
    list_shown::mark_shown(t, &mut marks);
    marks[i - 1] == 1
}

// The index of the shown milking with that label.
pub fn find_milking(table: &[u64], label: u64) -> Result<Option<usize>, Refusal>
    ensures { known_told result ≡ told_known (find_number table.now) (find_index table.now label) (not (eqb (find_index table.now label) 0)) }
{
    if !layout::table_length(table) {
        return Err(Refusal::WrongLength);
    }
    let schema = book_schema::schema();
    let t = judged::judge(&schema, table)?;
    if !Label::is_label(label) {
        return Ok(None);
    }
    let Some(i) = edit_targets::find(t, book_schema::MILKING, label) else {
        return Ok(None);
    };
    if !is_shown(t, i) {
        return Ok(None);
    }
    Ok(Some(i))
}
