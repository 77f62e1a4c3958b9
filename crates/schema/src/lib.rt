// The schema check: whether a slice is a whole schema that breaks no rule.
#![tactic(auto)]

ghost use Rattle.std.specs.Prelude.{◌≡◌, cond, ◌≤◌, leb, eqb};
ghost use Rattle.answers.specs.Told.{told};
ghost use Rattle.answers.specs.Refused.{done_told};
ghost use Rattle.model.specs.Layout.{fields, most_relations, relations};
ghost use Rattle.model.specs.Lists.{each};
ghost use Rattle.model.specs.Schemas.{kind_rule, mask_rule, broken};
ghost use Rattle.model.specs.Shapes.{count_in, kind_in, block_rule_in, empty_block_in, broken_in};
ghost use Rattle.model.specs.Calls.{schema_number};

use answers::Refusal;
use layout::FIELDS;

// Whether a field may be of this kind, where there are `most` relations.
fn kind_rule(most: usize, kind: u64) -> bool
    requires { most ≤ most_relations }
    ensures { result ≡ kind_rule most kind }
{
    (kind == layout::PLAIN)
        | ((layout::ABORT + 1 <= kind) & (kind <= layout::ABORT + most as u64))
        | ((layout::PROPAGATION + 1 <= kind) & (kind <= layout::PROPAGATION + most as u64))
}

// The kind of field `j`, where there are `count` fields: 0 above them.
fn kind_placed(most: usize, count: usize, j: usize, kind: u64) -> bool
    requires { most ≤ most_relations }
    ensures { result ≡ cond (leb j count) (kind_rule most kind) (eqb kind 0) }
{
    if j <= count {
        return kind_rule(most, kind);
    }
    kind == 0
}

// Whether a key names one to four of the first `count` fields, or is no key.
fn mask_rule(count: usize, mask: u64) -> bool
    requires { count ≤ fields }
    ensures { result ≡ mask_rule count mask }
{
    let ones = u64::count_ones(mask);
    (mask == 0) | ((1 <= ones) & (ones <= layout::MOST_KEY_FIELDS) & (mask < 1 << count))
}

// The blocks of a schema of `F` fields, with the number of its relations in its range.
#[derive(Clone, Copy)]
struct Blocks<'a, const F: usize> {
    schema: &'a [u64],
    most: usize,
    ghost form: { F ≤ fields },
    ghost counted: { most ≡ relations schema.now },
    ghost few: { most ≤ most_relations },
}

impl<'a, const F: usize> Blocks<'a, F> {
    // The kinds of relation `r`, which has `count` fields.
    fn kinds_good(self, r: usize, count: usize) -> bool
        requires { count ≡ count_in F self.schema.now r }
        ensures { result ≡ each F (λ j. cond (leb j (count_in F self.entry.schema.now r)) (kind_rule (relations self.entry.schema.now) (kind_in F self.entry.schema.now r j)) (eqb (kind_in F self.entry.schema.now r j) 0)) }
    {
        let mut good = true;
        for j in 0..F {
            good &= kind_placed(
                self.most,
                count,
                j + 1,
                layout::kind_in::<F>(self.schema, r, j + 1),
            );
        }
        good
    }

    // The block of a relation of the schema.
    fn block_rule(self, r: usize) -> bool
        ensures { result ≡ block_rule_in F self.entry.schema.now r }
    {
        let count = layout::count_in::<F>(self.schema, r);
        if count < 1 {
            return false;
        }
        if F < count {
            return false;
        }
        let kinds = self.kinds_good(r, count);
        let key1 = mask_rule(count, layout::mask_in::<F>(self.schema, r, 1));
        let key2 = mask_rule(count, layout::mask_in::<F>(self.schema, r, 2));
        kinds & key1 & key2 & (layout::mask_in::<F>(self.schema, r, 3) == 0)
    }

    // A block above the relations.
    fn empty_block(self, r: usize) -> bool
        requires { r ≤ most_relations }
        ensures { result ≡ empty_block_in F self.entry.schema.now r }
    {
        let from = layout::block_in::<F>(r);
        let mut good = true;
        for j in 0..F + 4 {
            good &= layout::word(self.schema, from + j) == 0;
        }
        good
    }

    fn block_placed(self, r: usize) -> bool
        requires { r ≤ most_relations }
        ensures { result ≡ cond (leb r (relations self.entry.schema.now)) (block_rule_in F self.entry.schema.now r) (empty_block_in F self.entry.schema.now r) }
    {
        if r <= self.most {
            return self.block_rule(r);
        }
        self.empty_block(r)
    }

    fn good(self) -> bool
        ensures { result ≡ each most_relations (λ r. cond (leb r (relations self.entry.schema.now)) (block_rule_in F self.entry.schema.now r) (empty_block_in F self.entry.schema.now r)) }
    {
        let mut good = true;
        for r in 1..=layout::MOST_RELATIONS {
            good &= self.block_placed(r);
        }
        good
    }
}

// Whether a schema of `F` fields breaks a rule. Words past the end of the slice count as 0.
pub fn is_broken_in<const F: usize>(schema: &[u64]) -> bool
    requires { F ≤ fields }
    ensures { result ≡ broken_in F schema.now }
{
    let most = layout::relations(schema);
    if most < 1 {
        return true;
    }
    if layout::MOST_RELATIONS < most {
        return true;
    }
    !Blocks::<F> { schema, most }.good()
}

// Whether a schema breaks a rule. Words past the end of the slice count as 0.
pub fn is_broken(schema: &[u64]) -> bool
    ensures { result ≡ broken schema.now }
{
    is_broken_in::<FIELDS>(schema)
}

// Refuses a slice that is no schema, or a broken one.
pub fn schema_check(schema: &[u64]) -> Result<(), Refusal>
    ensures { done_told result ≡ told (schema_number schema.now) 0 }
{
    if !layout::schema_length(schema) {
        return Err(Refusal::WrongLength);
    }
    if is_broken(schema) {
        return Err(Refusal::SchemaBroken);
    }
    Ok(())
}
