// Well-formed tables: the chains, and table check.
#![tactic(auto)]

ghost use Rattle.std.specs.Prelude.{◌≡◌, true, false, ◌&&◌, ◌≤◌};
ghost use Rattle.answers.specs.Told.{told};
ghost use Rattle.answers.specs.Refused.{done_told};
ghost use Rattle.model.specs.Layout.{fields, most_records, used_at};
ghost use Rattle.model.specs.Lists.{each};
ghost use Rattle.model.specs.Schemas.{broken};
ghost use Rattle.model.specs.WellFormed.{well_formed};
ghost use Rattle.model.specs.Calls.{schema_length, table_length, table_number};
ghost use Rattle.model.specs.Shapes.{schema_length_in, table_length_in, broken_in, chain_step_in, chains_rise_in, on_chain_in, rest_zero_in, well_formed_in};
ghost use Rattle.table.specs.Chains.{record_good, read_rule_in, walked_to, walked_chain};

use answers::Refusal;
use crdt::Label;
use layout::FIELDS;
use table_rules::Readable;

// Above every label: a walk to it goes to the end of the chain.
const LABEL_SPAN: u64 = (Label::LARGEST_COUNTER + 1) * (Label::LARGEST_REPLICA + 1);

// One step of the chain of relation `r`, onto record `i` from a label.
pub fn chain_step<const F: usize>(t: &[u64], r: usize, low: u64, i: usize) -> bool
    requires { F ≤ fields }
    ensures { result ≡ chain_step_in F t.now r low i }
{
    let used = layout::used(t);
    let own = layout::relation_in::<F>(t, i) == r;
    let rises = low < layout::label_in::<F>(t, i);
    let ends = layout::next_in::<F>(t, i) <= used;
    (i <= used) & own & rises & ends
}

// Whether record `i`, read on the way along the chain of relation `r` after the label `low`, is good.
fn is_good<const F: usize>(of: Readable<F>, r: usize, low: u64, i: usize) -> bool
    requires { 1 ≤ i }
    ensures { result ≡ read_rule_in F of.entry.schema.now of.entry.table.now r low i }
{
    if !chain_step::<F>(of.table, r, low, i) {
        return false;
    }
    of.record_good(i)
}

// Where a walk along a chain ends: at a record whose label is not below the label looked for, or behind the last record, with
// how many were read.
#[derive(Clone, Copy)]
pub enum Stop {
    At(usize),
    End(usize),
}

// Walks the chain of relation `r` to the first label that is not below `label`, and tests each record that it reads: none
// where one is not good. A chain that comes back to a record stops rising within used + 1 steps.
pub fn walk_to<const F: usize>(of: Readable<F>, r: usize, label: u64) -> Option<Stop>
    ensures { result ≡ walked_to F of.entry.schema.now of.entry.table.now r label }
{
    let mut left = layout::used(of.table) + 1;
    let mut low = 0;
    let mut n = 0;
    let mut i = layout::first_at(of.table, r);
    while (0 < left) & (0 < i) {
        if !is_good::<F>(of, r, low, i) {
            return None;
        }
        low = layout::label_in::<F>(of.table, i);
        if label <= low {
            return Some(Stop::At(i));
        }
        i = layout::next_in::<F>(of.table, i);
        n += 1;
        left -= 1;
    }
    Some(Stop::End(n))
}

// Walks the chain of relation `r` to its end: how many records it holds, where it rises and each of them is good.
pub fn walk_chain<const F: usize>(of: Readable<F>, r: usize) -> Option<usize>
    ensures { result ≡ walked_chain F of.entry.schema.now of.entry.table.now r }
{
    match walk_to::<F>(of, r, LABEL_SPAN)? {
        Stop::At(_) => None,
        Stop::End(n) => Some(n),
    }
}

// The used records are good, and the chains rise and hold every one of them: a record lies on the chain of one relation only, and
// there once, so the lengths of the chains tell.
pub fn chains<const F: usize>(of: Readable<F>) -> bool
    ensures { result ≡ (each (used_at of.entry.table.now) (record_good F of.entry.schema.now of.entry.table.now) && chains_rise_in F of.entry.table.now
        && each (used_at of.entry.table.now) (on_chain_in F of.entry.table.now)) }
{
    let mut count = 0;
    for r in 0..layout::MOST_RELATIONS {
        let Some(n) = walk_chain::<F>(of, r + 1) else {
            return false;
        };
        count += n;
    }
    count == layout::used(of.table)
}

// The words above the used records are zero.
pub fn rest_zero<const F: usize>(t: &[u64]) -> bool
    requires { (F ≤ fields) × (used_at t.now ≤ most_records) }
    ensures { result ≡ rest_zero_in F t.now }
{
    let mut good = true;
    for k in layout::base_in::<F>(layout::used(t) + 1)..t.len() {
        good &= t[k] == 0;
    }
    good
}

// Whether a table of the right length is well-formed under a schema that isn't broken, both of `F` fields.
pub fn well_formed_in<const F: usize>(schema: &[u64], t: &[u64]) -> bool
    requires { (F ≤ fields) × (schema_length_in F schema.now ≡ true) × (table_length_in F t.now ≡ true) × (broken_in F schema.now ≡ false) }
    ensures { result ≡ well_formed_in F schema.now t.now }
{
    if !table_rules::header_rules_in::<F>(t) {
        return false;
    }
    let of = Readable::<F> { schema, table: t };
    table_rules::firsts_rule(t)
        & table_rules::empty_above(schema, t)
        & chains::<F>(of)
        & rest_zero::<F>(t)
}

// Whether a table of the right length is well-formed under a schema that isn't broken.
pub fn well_formed(schema: &[u64], t: &[u64]) -> bool
    requires { (schema_length schema.now ≡ true) × (table_length t.now ≡ true) × (broken schema.now ≡ false) }
    ensures { result ≡ well_formed schema.now t.now }
{
    well_formed_in::<FIELDS>(schema, t)
}

// Refuses a slice that is no well-formed table under a schema.
pub fn table_check(schema: &[u64], table: &[u64]) -> Result<(), Refusal>
    ensures { done_told result ≡ told (table_number schema.now table.now) 0 }
{
    let lengths = layout::schema_length(schema) & layout::table_length(table);
    if !lengths {
        return Err(Refusal::WrongLength);
    }
    if schema::is_broken(schema) {
        return Err(Refusal::SchemaBroken);
    }
    if !well_formed(schema, table) {
        return Err(Refusal::TableBroken);
    }
    Ok(())
}
