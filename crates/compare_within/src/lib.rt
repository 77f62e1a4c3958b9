// Whether a table is behind another or alike: its clock at most the other's, and each record up to the other's, by flag and registers. Both
// chains of a relation are walked side by side. Nothing is written.
#![tactic(auto)]

ghost use Rattle.std.specs.Prelude.{◌≡◌, true, ◌&&◌, ◌^◌, ◌/◌, ◌≤◌};
ghost use Rattle.model.specs.Layout.{fields, most_relations, most_records, word, label_at};
ghost use Rattle.model.specs.Tables.{contents};
ghost use Rattle.model.specs.Compare.{join_contents, same_contents};
ghost use Rattle.merge_laws.specs.Absorb.{records_in, meets};
ghost use Rattle.compare_laws.specs.UpTo.{chain_up_to, records_up_to, field_up_to, fields_up_to, record_up_to};

use merge_seek::WholeTable;

// Whether field `f` behind word `p` of the first table has an older stamp than the one behind word `q` of the second, or the same stamp and no
// larger value.
fn field_within(first: &[u64], p: usize, second: &[u64], q: usize, f: usize) -> bool
    requires { (p ≤ 2 ^ 62) × (q ≤ 2 ^ 62) × (f ≤ fields) }
    ensures { result ≡ field_up_to first.now p second.now q f }
{
    let old = layout::word(first, p + layout::FIELDS + f);
    let new = layout::word(second, q + layout::FIELDS + f);
    (old < new) | ((old == new) & (layout::word(first, p + f) <= layout::word(second, q + f)))
}

// Half of the fields: the compiler unrolls a loop over these, and not one over all of them, which takes longer for each field.
const HALF: usize = layout::FIELDS / 2;

const ALL: usize = layout::FIELDS;

// Whether the first `TO` fields are up to the second's, where the first `FROM` are.
fn part_within<const FROM: usize, const TO: usize>(
    first: &[u64],
    p: usize,
    second: &[u64],
    q: usize,
) -> bool
    requires { (p ≤ 2 ^ 62) × (q ≤ 2 ^ 62) × (FROM ≤ TO) × (TO ≤ fields) × (true ≡ fields_up_to FROM first.now p second.now q) }
    ensures { result ≡ fields_up_to TO first.now p second.now q }
{
    for done in FROM..TO {
        if !field_within(first, p, second, q, done + 1) {
            return false;
        }
    }
    true
}

fn fields_within(first: &[u64], p: usize, second: &[u64], q: usize) -> bool
    requires { (p ≤ 2 ^ 62) × (q ≤ 2 ^ 62) }
    ensures { result ≡ fields_up_to fields first.now p second.now q }
{
    if !part_within::<0, HALF>(first, p, second, q) {
        return false;
    }
    part_within::<HALF, ALL>(first, p, second, q)
}

// Whether record `j` of the first table has no larger flag than record `i` of the second, and no later register.
fn record_within(first: &[u64], j: usize, second: &[u64], i: usize) -> bool
    requires { (j ≤ most_records) × (i ≤ most_records) }
    ensures { result ≡ record_up_to first.now j second.now i }
{
    if layout::flag_at(second, i) < layout::flag_at(first, j) {
        return false;
    }
    let p = layout::base(j) + (layout::HEAD_WORDS - 1);
    let q = layout::base(i) + (layout::HEAD_WORDS - 1);
    fields_within(first, p, second, q)
}

// Whether word `link` of the second table leads to record `j` of the first, up to the second's.
fn link_within(first: &[u64], j: usize, second: &[u64], link: usize) -> bool
    requires { (j ≤ most_records) × (word second.now link ≤ most_records) }
    ensures { result ≡ (meets second.now link (label_at first.now j) && record_up_to first.now j second.now (word second.now link)) }
{
    if merge_seek::meets(second, link, layout::label_at(first, j)) {
        return record_within(first, j, second, layout::word(second, link) as usize);
    }
    false
}

// Whether each record of a relation of the first table is up to the second's.
fn chain_within(first: WholeTable, second: WholeTable, relation: usize) -> bool
    requires { (1 ≤ relation) × (relation ≤ most_relations) }
    ensures { result ≡ chain_up_to (records_in second.entry.words.now) relation (records_in first.entry.words.now) }
{
    let mut link = layout::FIRST_WORDS + (relation - 1);
    let mut j = layout::first_at(first.words, relation);
    while 0 < j {
        link = merge_seek::seek(second.words, link, layout::label_at(first.words, j));
        if !link_within(first.words, j, second.words, link) {
            return false;
        }
        j = layout::next_at(first.words, j);
    }
    true
}

// Whether each record of the first table is up to the second's.
fn records_within(first: WholeTable, second: WholeTable) -> bool
    ensures { result ≡ records_up_to (records_in second.entry.words.now) (records_in first.entry.words.now) }
{
    for relation in 1..=layout::MOST_RELATIONS {
        if !chain_within(first, second, relation) {
            return false;
        }
    }
    true
}

// Whether the first table is behind the second or alike: the merge of both has exactly the second's contents.
pub fn within(first: WholeTable, second: WholeTable) -> bool
    ensures { result ≡ same_contents (join_contents (contents first.entry.words.now) (contents second.entry.words.now)) (contents second.entry.words.now) }
{
    if layout::clock(second.words) < layout::clock(first.words) {
        return false;
    }
    records_within(first, second)
}
