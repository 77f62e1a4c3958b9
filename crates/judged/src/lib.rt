// A schema and a table that were judged: checks 2 and 3 of document 01, after which nothing tests them again.
#![tactic(auto)]

ghost use Rattle.std.specs.Prelude.{◌≡◌, true, not, [], ◌∷◌, IfOk};
ghost use Rattle.answers.specs.Refused.{number_of};
ghost use Rattle.model.specs.Lists.{check, lowest};
ghost use Rattle.model.specs.Schemas.{broken};
ghost use Rattle.model.specs.WellFormed.{well_formed};
ghost use Rattle.model.specs.Calls.{schema_length, table_length};
ghost use Rattle.judged.specs.Checked.{Checked};

use answers::Refusal;

// A schema that isn't broken, and a table that is well-formed under it.
#[derive(Clone, Copy)]
pub struct Judged<'a> {
    pub schema: &'a [u64],
    pub table: &'a [u64],
    pub ghost checked: { Checked schema.now table.now },
}

// Judges a schema and a table of the right lengths.
pub fn judge<'a>(schema: &'a [u64], table: &'a [u64]) -> Result<Judged<'a>, Refusal>
    requires { (schema_length schema.now ≡ true) × (table_length table.now ≡ true) }
    ensures number { number_of result ≡ lowest (check 2 (broken schema.now) ∷ check 3 (not (well_formed schema.now table.now)) ∷ []) }
    ensures lent { IfOk result (λ t. (t.schema.now ≡ schema.now) × (t.table.now ≡ table.now)) }
{
    if schema::is_broken(schema) {
        return Err(Refusal::SchemaBroken);
    }
    if !table::well_formed(schema, table) {
        return Err(Refusal::TableBroken);
    }
    Ok(Judged { schema, table })
}
