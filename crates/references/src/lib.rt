// References resolved: each reference of a table once, to the position of the record that it leads to.
#![tactic(auto)]

ghost use Rattle.std.specs.Prelude.{◌≡◌, ◌≤◌, ◌<◌, ◌+◌, ◌*◌, ◌-◌, length};
ghost use Rattle.std.specs.Option.{MatchOption};
ghost use Rattle.model.specs.Layout.{fields, most_relations, most_records, used_at, relation_at};
ghost use Rattle.model.specs.Schemas.{abort_kinds};
ghost use Rattle.model.specs.Records.{label_span, place, position};
ghost use Rattle.model.specs.Tables.{decode, record_of};
ghost use Rattle.references.specs.Order.{key_at, Ordered};
ghost use Rattle.references.specs.Search.{half_word, Sorted, Lower, Lists, Holds};
ghost use Rattle.references.specs.Resolved.{resolved_at, Resolves, Leads, Blank, Filled};

use judged::Judged;

// What stands for a nonempty reference that leads to no record.
pub const ABSENT: u16 = 0xffff;

// One more than the largest label.
const LABEL_SPAN: u64 = 0x1_0000_0000_0000;

// Half of the numbers of a word. Keys are below it.
const HALF_WORD: u64 = 0x8000_0000_0000_0000;

// A table with its references resolved, as `resolve` writes them.
#[derive(Clone, Copy)]
pub struct Resolved<'a> {
    pub t: Judged<'a>,
    pub refs: &'a [u16],
    pub ghost resolves: { Resolves t.schema.now t.table.now refs.now },
    pub ghost room: { fields * used_at t.table.now ≤ length refs.now },
}

// The records of a table in list order, and their keys.
#[derive(Clone, Copy)]
struct Listed<'a> {
    t: Judged<'a>,
    order: &'a [u16],
    keys: &'a [u64],
    ghost lists: { Lists t.table.now order.now keys.now },
}

// The records of one relation in list order, and their keys.
#[derive(Clone, Copy)]
struct Part<'a> {
    t: Judged<'a>,
    relation: u64,
    order: &'a [u16],
    keys: &'a [u64],
    ghost known: { relation < abort_kinds },
    ghost holds: { Holds t.table.now order.now keys.now relation },
}

// The key of record `i`: its relation and its label as one number.
#[tactic(auto, using(crate::proofs::Places::relation_most, crate::proofs::Places::label_bounds), unfolding(model::specs::Tables::record_of))]
fn key_at(t: Judged<'_>, i: usize) -> u64
    requires { (1 ≤ i) × (i ≤ used_at t.table.now) }
    ensures { result ≡ key_at t.entry.table.now i }
{
    layout::relation_at(t.table, i) as u64 * LABEL_SPAN + layout::label_at(t.table, i)
}

// The chain of relation `r` put behind the first `from` entries; the number of entries then.
fn list_chain(t: Judged<'_>, r: usize, order: &mut [u16], from: usize) -> usize
    requires { (1 ≤ r) × (r ≤ most_relations) × (most_records ≤ length order.old) × Ordered t.table.now (place r 0) order.old from }
    ensures { Ordered t.entry.table.now (place (r + 1) 0) order.new result }
{
    let mut n = from;
    let mut i = layout::first_at(t.table, r);
    while i != 0 {
        order[n] = i as u16;
        n += 1;
        i = layout::next_at(t.table, i);
    }
    n
}

// The positions of all records in list order; how many they are.
pub fn list_records(t: Judged<'_>, order: &mut [u16]) -> usize
    requires { most_records ≤ length order.old }
    ensures { Ordered t.entry.table.now (place (most_relations + 1) 0) order.new result }
{
    let mut n: usize = 0;
    for r in 1..=layout::MOST_RELATIONS {
        n = list_chain(t, r, order, n);
    }
    n
}

// The keys of all records in list order.
fn list_keys(t: Judged<'_>, order: &[u16], keys: &mut [u64])
    requires { (length keys.old ≡ length order.now) × Ordered t.table.now (place (most_relations + 1) 0) order.now (length order.now) }
    ensures { Lists t.entry.table.now order.now keys.new }
{
    for k in 0..order.len() {
        keys[k] = key_at(t, usize::from(order[k]));
    }
}

// 1 where `b` is at most `a`, and 0 where it is not. By a subtraction: the search below has no branch that depends on keys. Of
// `usize::from(b <= a)` the compiler makes such a branch, and the standing records then take twice as long.
fn at_least(a: u64, b: u64) -> usize
    requires { (a < half_word) × (b < half_word) }
    ensures { (b ≤ a → result ≡ 1) × (a < b → result ≡ 0) }
{
    ((a + HALF_WORD - b) / HALF_WORD) as usize
}

// The place of a key among the keys: those before it are smaller.
fn lower(keys: &[u64], key: u64) -> usize
    requires { Sorted keys.now × (key < half_word) }
    ensures { Lower keys.now key result }
{
    let mut high = keys.len();
    let mut rest = high;
    while 0 < rest {
        let half = rest - rest / 2;
        high -= half * at_least(keys[high - half], key);
        rest = rest / 2;
    }
    high
}

impl<'a> Listed<'a> {
    // The records of relation `r`.
    fn part(self, r: u64) -> Part<'a>
        requires { r < abort_kinds }
        ensures { (result.t.schema.now ≡ self.entry.t.schema.now) × (result.t.table.now ≡ self.entry.t.table.now) × (result.relation ≡ r) }
    {
        let from = lower(self.keys, r * LABEL_SPAN);
        let to = lower(self.keys, (r + 1) * LABEL_SPAN);
        Part {
            t: self.t,
            relation: r,
            order: &self.order[from..to],
            keys: &self.keys[from..to],
        }
    }

    // Field `j` of all records of relation `r`.
    fn resolve_field(self, r: usize, j: usize, refs: &mut [u16])
        requires { (r ≤ most_relations) × (1 ≤ j) × (j ≤ fields) × (fields * used_at self.t.table.now ≤ length refs.old) × Filled self.t.schema.now self.t.table.now refs.old (fields * r + (j - 1)) }
        ensures { Filled self.entry.t.schema.now self.entry.t.table.now refs.new (fields * r + j) }
    {
        let kind = layout::kind_at(self.t.schema, r, j);
        if kind < layout::ABORT {
            return;
        }
        let target = self.part(kind % layout::ABORT);
        let source = self.part(r as u64).order;
        for &p in source {
            let i = usize::from(p);
            refs[layout::FIELDS * (i - 1) + (j - 1)] = target.resolve_one(i, j);
        }
    }

    // All references, field by field. The other entries are 0.
    fn resolve_all(self, refs: &mut [u16])
        requires { (fields * used_at self.t.table.now ≤ length refs.old) × Blank (fields * used_at self.t.table.now) refs.old }
        ensures { Resolves self.entry.t.schema.now self.entry.t.table.now refs.new }
    {
        for r in 1..=layout::MOST_RELATIONS {
            for j in 1..=layout::FIELDS {
                self.resolve_field(r, j, refs);
            }
        }
    }
}

impl Part<'_> {
    // The position of the record with a label.
    fn find(self, label: u64) -> Option<u16>
        requires { label < label_span }
        ensures { MatchOption result (position (place self.entry.relation label) (decode self.entry.t.table.now).records ≡ 0) (λ p. (1 ≤ p) × (p ≡ position (place self.entry.relation label) (decode self.entry.t.table.now).records)) }
    {
        let key = self.relation * LABEL_SPAN + label;
        let at = lower(self.keys, key);
        if at < self.keys.len() && self.keys[at] == key {
            return Some(self.order[at]);
        }
        None
    }

    // The position that field `j` of record `i` leads to, a reference to this relation.
    fn resolve_one(self, i: usize, j: usize) -> u16
        requires { (1 ≤ i) × (i ≤ used_at self.t.table.now) × (1 ≤ j) × (j ≤ fields) × Leads self.t.schema.now (relation_at self.t.table.now i) j self.relation }
        ensures { result ≡ resolved_at self.entry.t.schema.now self.entry.t.table.now i j }
    {
        let label = layout::value_at(self.t.table, i, j);
        if label == 0 {
            return 0;
        }
        self.find(label).unwrap_or(ABSENT)
    }
}

impl Resolved<'_> {
    // The position that field `j` of record `i` leads to: `ABSENT` where no record has that key, and 0 where the field is no reference or
    // is empty.
    #[tactic(auto, using(crate::proofs::Places::used_most))]
    pub fn at(self, i: usize, j: usize) -> u16
        requires { (1 ≤ i) × (i ≤ used_at self.t.table.now) × (1 ≤ j) × (j ≤ fields) }
        ensures { result ≡ resolved_at self.entry.t.schema.now self.entry.t.table.now i j }
    {
        self.refs[layout::FIELDS * (i - 1) + (j - 1)]
    }
}

// Each reference of the table, at FIELDS (i - 1) + (j - 1) for field `j` of record `i`: the position that it leads to, `ABSENT` where no
// record has that key, and 0 where the field is no reference or is empty.
pub fn resolve(t: Judged<'_>, refs: &mut [u16])
    requires { fields * used_at t.table.now ≤ length refs.old }
    ensures { Resolves t.entry.schema.now t.entry.table.now refs.new }
{
    let mut order = [0u16; layout::MOST_RECORDS];
    let mut keys = [0u64; layout::MOST_RECORDS];
    let n = list_records(t, &mut order);
    let order = &order[..n];
    let keys = &mut keys[..n];
    list_keys(t, order, keys);
    refs[..layout::FIELDS * layout::used(t.table)].fill(0);
    Listed { t, order, keys }.resolve_all(refs);
}
