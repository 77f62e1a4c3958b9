// Standing records: the complete ones with even flags, and the complete ones reached from these by abort references.
#![tactic(auto)]

ghost use Rattle.std.specs.Prelude.{◌≡◌, true, ◌≤◌, ◌<◌, ◌+◌, ◌*◌, length};
ghost use Rattle.std.specs.Option.{MatchOption};
ghost use Rattle.model.specs.Layout.{fields, most_records, field_count, used_at, relation_at};
ghost use Rattle.model.specs.Schemas.{schema_of};
ghost use Rattle.model.specs.Tables.{record_of};
ghost use Rattle.model.specs.Shown.{complete, live};
ghost use Rattle.references.specs.Resolved.{Marked};
ghost use Rattle.list_standing.specs.Work.{standing_of, mark_of, Clear, Added, Queue, More, Live, NoTarget, Target, Hopped, Visited};

use judged::Judged;
use references::Resolved;

// Whether all registers of record `i` have stamps.
#[tactic(auto, using(crate::proofs::Fields::complete_all, crate::proofs::Fields::complete_not))]
pub fn complete(t: Judged<'_>, i: usize) -> bool
    requires { (1 ≤ i) × (i ≤ used_at t.table.now) }
    ensures { result ≡ complete (schema_of t.entry.schema.now) (record_of t.entry.table.now i) }
{
    let count = layout::field_count(t.schema, layout::relation_at(t.table, i));
    for j in 1..=count {
        if layout::stamp_at(t.table, i, j) == 0 {
            return false;
        }
    }
    true
}

// Whether record `i` is complete and its flag even.
#[tactic(auto, unfolding(model::specs::Shown::live, model::specs::Tables::record_of))]
pub fn is_live(t: Judged<'_>, i: usize) -> bool
    requires { (1 ≤ i) × (i ≤ used_at t.table.now) }
    ensures { result ≡ live (schema_of t.entry.schema.now) (record_of t.entry.table.now i) }
{
    complete(t, i) & (layout::flag_at(t.table, i) % 2 == 0)
}

// The records found to stand, in the order in which their hops are followed.
#[derive(Drop)]
struct Found {
    entries: [u16; layout::MOST_RECORDS],
    count: usize,
}

impl Found {
    // Marks record `p` and puts it behind the others, unless it was marked before.
    fn add(&mut self, marks: &mut [u8], p: usize)
        requires { (1 ≤ p) × (p ≤ length marks.old) × (p ≤ most_records) × ((mark_of marks.old p ≡ 1 → ⊥) → self.old.count < most_records) }
        ensures { Added marks.old self.old.entries self.old.count p marks.new self.new.entries self.new.count }
    {
        if marks[p - 1] == 1 {
            return;
        }
        marks[p - 1] = 1;
        self.entries[self.count] = p as u16;
        self.count += 1;
    }

    // Step 1 for record `i`.
    fn start_one(&mut self, t: Judged<'_>, marks: &mut [u8], i: usize)
        requires { (used_at t.table.now ≤ length marks.old) × Queue t.schema.now t.table.now marks.old self.old.entries self.old.count × (1 ≤ i) × (i ≤ used_at t.table.now) }
        ensures { Queue t.entry.schema.now t.entry.table.now marks.new self.new.entries self.new.count × More t.entry.table.now marks.old self.old.entries self.old.count marks.new self.new.entries self.new.count × (live (schema_of t.entry.schema.now) (record_of t.entry.table.now i) ≡ true → mark_of marks.new i ≡ 1) }
    {
        if is_live(t, i) {
            self.add(marks, i);
        }
    }

    // Step 1.
    fn start(&mut self, t: Judged<'_>, marks: &mut [u8])
        requires { (used_at t.table.now ≤ length marks.old) × Clear (used_at t.table.now) marks.old × (self.old.count ≡ 0) }
        ensures { Queue t.entry.schema.now t.entry.table.now marks.new self.new.entries self.new.count × Live t.entry.schema.now t.entry.table.now marks.new }
    {
        for i in 1..=layout::used(t.table) {
            self.start_one(t, marks, i);
        }
    }

    // The hop of field `j` of record `i`, which lands only on a complete record.
    fn hop(&mut self, resolved: Resolved<'_>, marks: &mut [u8], i: usize, j: usize)
        requires { (used_at resolved.t.table.now ≤ length marks.old) × Queue resolved.t.schema.now resolved.t.table.now marks.old self.old.entries self.old.count × (1 ≤ i) × (i ≤ used_at resolved.t.table.now) × (mark_of marks.old i ≡ 1) × (1 ≤ j) × (j ≤ field_count resolved.t.schema.now (relation_at resolved.t.table.now i)) }
        ensures { Queue resolved.entry.t.schema.now resolved.entry.t.table.now marks.new self.new.entries self.new.count × More resolved.entry.t.table.now marks.old self.old.entries self.old.count marks.new self.new.entries self.new.count × Hopped resolved.entry.t.schema.now resolved.entry.t.table.now marks.new i j }
    {
        let Some(p) = abort_target(resolved, i, j) else {
            return;
        };
        if marks[p - 1] == 1 {
            return;
        }
        if complete(resolved.t, p) {
            self.add(marks, p);
        }
    }

    // The hops of record `i`.
    fn visit(&mut self, resolved: Resolved<'_>, marks: &mut [u8], i: usize)
        requires { (used_at resolved.t.table.now ≤ length marks.old) × Queue resolved.t.schema.now resolved.t.table.now marks.old self.old.entries self.old.count × (1 ≤ i) × (i ≤ used_at resolved.t.table.now) × (mark_of marks.old i ≡ 1) }
        ensures { Queue resolved.entry.t.schema.now resolved.entry.t.table.now marks.new self.new.entries self.new.count × More resolved.entry.t.table.now marks.old self.old.entries self.old.count marks.new self.new.entries self.new.count × Visited resolved.entry.t.schema.now resolved.entry.t.table.now marks.new i (field_count resolved.entry.t.schema.now (relation_at resolved.entry.t.table.now i)) }
    {
        let t = resolved.t;
        for j in 1..=layout::field_count(t.schema, layout::relation_at(t.table, i)) {
            self.hop(resolved, marks, i, j);
        }
    }

    // Step 2.
    #[tactic(auto, using(crate::proofs::Work::queue_room, references::proofs::Places::used_most))]
    fn spread(&mut self, resolved: Resolved<'_>, marks: &mut [u8])
        requires { (used_at resolved.t.table.now ≤ length marks.old) × Queue resolved.t.schema.now resolved.t.table.now marks.old self.old.entries self.old.count × Live resolved.t.schema.now resolved.t.table.now marks.old }
        ensures { Marked resolved.entry.t.table.now (standing_of resolved.entry.t.schema.now resolved.entry.t.table.now) marks.new }
    {
        let mut k: usize = 0;
        while k < self.count {
            let i = usize::from(self.entries[k]);
            self.visit(resolved, marks, i);
            k += 1;
        }
    }
}

// The record that field `j` of record `i` leads to by abort.
#[tactic(auto, using(references::proofs::Places::used_most))]
fn abort_target(resolved: Resolved<'_>, i: usize, j: usize) -> Option<usize>
    requires { (1 ≤ i) × (i ≤ used_at resolved.t.table.now) × (1 ≤ j) × (j ≤ fields) }
    ensures { MatchOption result (NoTarget resolved.entry.t.schema.now resolved.entry.t.table.now i j) (Target resolved.entry.t.schema.now resolved.entry.t.table.now i j) }
{
    let p = resolved.at(i, j);
    if p == 0 || p == references::ABSENT {
        return None;
    }
    let t = resolved.t;
    let kind = layout::kind_at(t.schema, layout::relation_at(t.table, i), j);
    if !(layout::ABORT..layout::PROPAGATION).contains(&kind) {
        return None;
    }
    Some(usize::from(p))
}

// Marks the standing records, by the table's references resolved: 1 where a record stands and 0 where it does not.
pub fn stand(resolved: Resolved<'_>, marks: &mut [u8])
    requires { used_at resolved.t.table.now ≤ length marks.old }
    ensures { Marked resolved.entry.t.table.now (standing_of resolved.entry.t.schema.now resolved.entry.t.table.now) marks.new }
{
    let t = resolved.t;
    marks[..layout::used(t.table)].fill(0);
    let mut found = Found {
        entries: [0; layout::MOST_RECORDS],
        count: 0,
    };
    found.start(t, marks);
    found.spread(resolved, marks);
}

// Marks the standing records: 1 where a record stands and 0 where it does not.
#[tactic(auto, using(references::proofs::Places::used_most))]
pub fn standing_set(t: Judged<'_>, marks: &mut [u8])
    requires { used_at t.table.now ≤ length marks.old }
    ensures { Marked t.entry.table.now (standing_of t.entry.schema.now t.entry.table.now) marks.new }
{
    let mut refs = [0u16; layout::FIELDS * layout::MOST_RECORDS];
    references::resolve(t, &mut refs);
    stand(Resolved { t, refs: &refs }, marks);
}
