// Step 3 of the shown list: by rising label, a standing record is dropped exactly if it conflicts with an older one of its relation that is
// kept. Marks are one byte per record, 1 for a member and 0 for none. For each key of a relation the records that are kept are put into
// buckets by a digest of their values, from the oldest on, and a record is compared with those of its bucket.
#![tactic(auto)]

ghost use Rattle.std.specs.Prelude.{◌≡◌, cond, ◌+◌, ◌-◌, ◌≤◌, ◌<◌, length, set, replicate, MatchOption};
ghost use Rattle.model.specs.Layout.{fields, most_relations, most_records, used_at, relation_at, label_at, field_count, mask_at};
ghost use Rattle.model.specs.Schemas.{schema_of};
ghost use Rattle.model.specs.Records.{place, in_order};
ghost use Rattle.model.specs.Tables.{decode};
ghost use Rattle.model.specs.Shown.{standing, kept};
ghost use Rattle.marks.specs.Marks.{is_marked};
ghost use Rattle.references.specs.Resolved.{Marked};
ghost use Rattle.list_keys.specs.Buckets.{digests, buckets, mixed, digest_of, bucket_at, slot_at, beaten_on, loses};
ghost use Rattle.list_keys.specs.Keys.{Holds, linked};
ghost use Rattle.list_keys.specs.Passes.{Upto, Copied};

use judged::Judged;

// One more than the largest digest. The two halves of each value are added, and spread by a factor near 2^30 over the golden ratio.
const DIGESTS: u64 = 0x4000_0000;

const HALF: u64 = 0x1_0000_0000;

const SPREAD: u64 = 663_608_941;

// The buckets, and the digests of each: a bucket is the upper bits of a digest.
const BUCKETS: usize = 4096;

const SHARE: u64 = 0x4_0000;

// The digest after a field more: a field that is none of the key's leaves it as it is. The lowest bit of `mask` says whether it is
// one of the key's.
fn mix(digest: u64, mask: u64, value: u64) -> u64
    requires { digest < digests }
    ensures { result ≡ mixed digest mask value }
{
    if mask % 2 == 0 {
        return digest;
    }
    (digest + value % HALF + value / HALF) * SPREAD % DIGESTS
}

// The digest of the values of relation `r` in the fields of a key.
fn digest(schema: &[u64], r: usize, mask: u64, values: &[u64]) -> u64
    requires { (length values.now ≡ fields) × (field_count schema.now r ≤ fields) }
    ensures { result ≡ digest_of schema.now r mask values.now }
{
    let mut d: u64 = 0;
    let mut m = mask;
    for j in 0..layout::field_count(schema, r) {
        d = mix(d, m, values[j]);
        m /= 2;
    }
    d
}

// The bucket of record `i`, by the digest of its key.
fn bucket(t: Judged<'_>, mask: u64, i: usize) -> usize
    requires { (1 ≤ i) × (i ≤ used_at t.table.now) }
    ensures { result ≡ bucket_at t.entry.schema.now t.entry.table.now mask i }
{
    let a = list_conflicts::values_start(t, i);
    let r = layout::relation_at(t.table, i);
    (digest(t.schema, r, mask, &t.table[a..a + layout::FIELDS]) / SHARE) as usize
}

// A key of a relation, with records in buckets: the youngest of each bucket, and of each record the next older one of its bucket, 0 for
// none.
#[derive(Drop)]
struct Key {
    mask: u64,
    heads: [u16; BUCKETS],
    links: [u16; layout::MOST_RECORDS],
}

impl Key {
    // A key with no records.
    fn empty(mask: u64) -> Key
        ensures { (result.mask ≡ mask) × (result.heads ≡ replicate buckets 0) }
    {
        Key {
            mask,
            heads: [0; BUCKETS],
            links: [0; layout::MOST_RECORDS],
        }
    }

    // The bucket of record `i`; none where a reference of its key is empty, so that it conflicts with none.
    fn slot(&self, t: Judged<'_>, i: usize) -> Option<usize>
        requires { (1 ≤ i) × (i ≤ used_at t.table.now) }
        ensures { result ≡ slot_at t.entry.schema.now t.entry.table.now self.now.mask i }
    {
        if !list_conflicts::records_conflict(t, self.mask, i, i) {
            return None;
        }
        Some(bucket(t, self.mask, i))
    }

    // Whether an older record of its relation that is kept conflicts with record `i`: those of its bucket are asked.
    fn is_beaten(&self, t: Judged<'_>, marks: &[u8], slot: Option<usize>, i: usize) -> bool
        requires { (1 ≤ i) × (i ≤ used_at t.table.now) × (slot ≡ slot_at t.schema.now t.table.now self.now.mask i) × Holds t.schema.now t.table.now marks.now (relation_at t.table.now i) (label_at t.table.now i) self.now }
        ensures { result ≡ beaten_on t.entry.schema.now t.entry.table.now marks.now self.now.mask i }
    {
        let Some(b) = slot else {
            return false;
        };
        let mut at = usize::from(self.heads[b]);
        while at != 0 {
            if list_conflicts::records_conflict(t, self.mask, at, i) {
                return true;
            }
            at = usize::from(self.links[at - 1]);
        }
        false
    }

    // Record `i` put at the head of its bucket, if it has one.
    fn link(&mut self, slot: Option<usize>, i: usize)
        requires { (1 ≤ i) × (i ≤ most_records) × MatchOption slot (Unit {0}) (λ b. b < buckets) }
        ensures { self.new ≡ linked self.old slot i }
    {
        if let Some(b) = slot {
            self.links[i - 1] = self.heads[b];
            self.heads[b] = i as u16;
        }
    }
}

// Record `i` dropped if it is beaten on either key, and otherwise put into its buckets. The older ones that are kept are in theirs.
fn pass(t: Judged<'_>, first: &mut Key, second: &mut Key, marks: &mut [u8], i: usize)
    requires { (1 ≤ i) × (i ≤ used_at t.table.now) × (used_at t.table.now ≤ length marks.old) × Holds t.schema.now t.table.now marks.old (relation_at t.table.now i) (label_at t.table.now i) first.old × Holds t.schema.now t.table.now marks.old (relation_at t.table.now i) (label_at t.table.now i) second.old }
    ensures marks { marks.new ≡ cond (loses t.entry.schema.now t.entry.table.now marks.old first.old.mask second.old.mask i) (set marks.old (i - 1) 0) marks.old }
    ensures first { (first.new.mask ≡ first.old.mask) × Holds t.entry.schema.now t.entry.table.now marks.new (relation_at t.entry.table.now i) (label_at t.entry.table.now i + 1) first.new }
    ensures second { (second.new.mask ≡ second.old.mask) × Holds t.entry.schema.now t.entry.table.now marks.new (relation_at t.entry.table.now i) (label_at t.entry.table.now i + 1) second.new }
{
    if !marks::is_marked(marks, i) {
        return;
    }
    let b = first.slot(t, i);
    let c = second.slot(t, i);
    let beaten = first.is_beaten(t, marks, b, i) | second.is_beaten(t, marks, c, i);
    if beaten {
        marks[i - 1] = 0;
        return;
    }
    first.link(b, i);
    second.link(c, i);
}

// Step 3 along the chain of relation `r`, from the oldest on. The buckets lent are empty.
fn keep_along(t: Judged<'_>, r: usize, first: &mut Key, second: &mut Key, marks: &mut [u8])
    requires { (1 ≤ r) × (r ≤ most_relations) × (first.old.mask ≡ mask_at t.schema.now r 1) × (second.old.mask ≡ mask_at t.schema.now r 2) × (used_at t.table.now ≤ length marks.old) × Upto t.schema.now t.table.now (place r 0) marks.old × Holds t.schema.now t.table.now marks.old r 0 first.old × Holds t.schema.now t.table.now marks.old r 0 second.old }
    ensures { Upto t.entry.schema.now t.entry.table.now (place (r + 1) 0) marks.new }
{
    let mut i = layout::first_at(t.table, r);
    while i != 0 {
        pass(t, first, second, marks, i);
        i = layout::next_at(t.table, i);
    }
}

// The marks of the first `n` records copied.
fn copy_marks(stands: &[u8], marks: &mut [u8], n: usize)
    requires { n ≤ length marks.old }
    ensures { Copied stands.now n marks.new }
{
    for k in 0..n {
        marks[k] = u8::from(marks::is_marked(stands, k + 1));
    }
}

// Step 3 for the records of relation `r`. Mask 0 is no key.
fn keep_of(t: Judged<'_>, r: usize, marks: &mut [u8])
    requires { (1 ≤ r) × (r ≤ most_relations) × (used_at t.table.now ≤ length marks.old) × Upto t.schema.now t.table.now (place r 0) marks.old }
    ensures { Upto t.entry.schema.now t.entry.table.now (place (r + 1) 0) marks.new }
{
    let first = layout::mask_at(t.schema, r, 1);
    let second = layout::mask_at(t.schema, r, 2);
    if (first == 0) & (second == 0) {
        return;
    }
    let mut first = Key::empty(first);
    let mut second = Key::empty(second);
    keep_along(t, r, &mut first, &mut second, marks);
}

// Step 3: from the marks of the standing records, the marks of those kept.
pub fn keep(t: Judged<'_>, stands: &[u8], marks: &mut [u8])
    requires { Marked t.table.now (standing (schema_of t.schema.now) (in_order (decode t.table.now).records)) stands.now × (used_at t.table.now ≤ length marks.old) }
    ensures { Marked t.entry.table.now (kept (schema_of t.entry.schema.now) (standing (schema_of t.entry.schema.now) (in_order (decode t.entry.table.now).records))) marks.new }
{
    copy_marks(stands, marks, layout::used(t.table));
    for r in 1..=layout::MOST_RELATIONS {
        keep_of(t, r, marks);
    }
}
