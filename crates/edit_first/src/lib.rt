// What the three edits begin with: checks 1 to 3, then the references of the table resolved and its standing and shown records marked.
#![tactic(auto)]

ghost use Rattle.std.specs.Prelude.{◌≡◌, ◌*◌, length, IfOk};
ghost use Rattle.answers.specs.Refused.{number_of};
ghost use Rattle.model.specs.Layout.{fields, most_records};
ghost use Rattle.edit_laws.specs.First.{first_number};

use answers::Refusal;
use edit_basics::Surveyed;
use judged::Judged;
use references::Resolved;

// Checks 1 to 3 of an edit; `bad` says that its record index is bad. Where none applies, the schema and the table are judged.
pub fn first_checks<'a>(
    schema: &'a [u64],
    own: &'a [u64],
    delta: &[u64],
    bad: bool,
) -> Result<Judged<'a>, Refusal>
    ensures number { number_of result ≡ first_number bad schema.now own.now delta.now }
    ensures lent { IfOk result (λ t. (t.schema.now ≡ schema.now) × (t.table.now ≡ own.now)) }
{
    let lengths = layout::schema_length(schema)
        & layout::table_length(own)
        & layout::delta_length(delta);
    if !lengths | bad {
        return Err(Refusal::WrongLength);
    }
    judged::judge(schema, own)
}

// The references of a judged table resolved, and its standing and its shown records marked.
pub fn survey<'a>(
    t: Judged<'a>,
    refs: &'a mut [u16],
    stands: &'a mut [u8],
    marks: &'a mut [u8],
) -> Surveyed<'a>
    requires { (fields * most_records ≡ length refs.old) × (most_records ≡ length stands.old) × (most_records ≡ length marks.old) }
    ensures { result.t ≡ t.entry }
{
    references::resolve(t, refs);
    let resolved = Resolved { t, refs };
    list_standing::stand(resolved, stands);
    list_shown::show(resolved, stands, marks);
    Surveyed {
        t,
        refs,
        stands,
        marks,
    }
}
