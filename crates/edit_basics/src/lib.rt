// What an edit's checks read, and the laws by which chains, values and references are walked.
#![tactic(auto)]

ghost use Rattle.std.specs.Prelude.{◌≡◌, ◌*◌, length};
ghost use Rattle.model.specs.Layout.{fields, most_records};
ghost use Rattle.model.specs.Schemas.{schema_of};
ghost use Rattle.model.specs.Shown.{standing, shown};
ghost use Rattle.references.specs.Resolved.{Resolves, Marked};
ghost use Rattle.edit_basics.specs.Targets.{held};

use judged::Judged;

// A judged table whose references were resolved, and whose standing and shown records were marked.
#[derive(Clone, Copy)]
pub struct Surveyed<'a> {
    pub t: Judged<'a>,
    pub refs: &'a [u16],
    pub stands: &'a [u8],
    pub marks: &'a [u8],
    pub ghost resolved: { Resolves t.schema.now t.table.now refs.now },
    pub ghost long: { fields * most_records ≡ length refs.now },
    pub ghost standing_marks: { Marked t.table.now (standing (schema_of t.schema.now) (held t.table.now)) stands.now },
    pub ghost shown_marks: { Marked t.table.now (shown (schema_of t.schema.now) (held t.table.now)) marks.now },
}
