// The words of a delta: an empty one, one more record, and the label of a new record.
#![tactic(auto)]

ghost use Rattle.std.specs.Prelude.{◌≡◌, cond, [], ◌≤◌, ◌<◌, length};
ghost use Rattle.crdt.specs.Labels.{largest_counter};
ghost use Rattle.crdt.specs.Flags.{redone, deleted};
ghost use Rattle.model.specs.Layout.{most_relations, most_records, delta_records, delta_words, clock_at, used_at, flag_at};
ghost use Rattle.model.specs.Tables.{decode, encode};
ghost use Rattle.model.specs.Edits.{new_label};
ghost use Rattle.edit_record.specs.Record.{link_of, appended, marked, Steppable, stepped};

// An empty delta.
pub fn begin(delta: &mut [u64], replica: u64, clock: u64)
    requires { length delta.old ≡ delta_words }
    ensures { delta.new ≡ encode (record { capacity = delta_records; replica = replica; clock = clock; records = [] }) }
{
    delta.fill(0);
    layout::store(delta, layout::REPLICA_WORD, replica);
    layout::store(delta, layout::CLOCK_WORD, clock);
}

// The word that links in a record of a relation behind the last record.
fn link(delta: &[u64], relation: usize) -> usize
    requires { (used_at delta.now ≤ most_records) × (1 ≤ relation) × (relation ≤ most_relations) }
    ensures { result ≡ link_of delta.now relation }
{
    let last = layout::used(delta);
    if (0 < last) & (layout::relation_at(delta, last) == relation) {
        return layout::base(last);
    }
    layout::FIRST_WORDS + (relation - 1)
}

// Writes a record with a flag and no stamps behind the last record.
#[tactic(auto, unfolding(model::specs::Layout::base))]
pub fn append(delta: &mut [u64], relation: usize, label: u64, flag: u64)
    requires { (used_at delta.old ≤ most_records) × (1 ≤ relation) × (relation ≤ most_relations) }
    ensures { delta.new ≡ appended delta.old relation label flag }
{
    let from = link(delta, relation);
    let new = layout::used(delta) + 1;
    let at = layout::base(new);
    layout::store(delta, at + layout::RELATION_WORD, relation as u64);
    layout::store(delta, at + layout::LABEL_WORD, label);
    layout::store(delta, at + layout::FLAG_WORD, flag);
    layout::store(delta, layout::USED_WORD, new as u64);
    layout::store(delta, from, new as u64);
}

// Whether record `i` is to be redone.
fn is_marked(redo: &[u8], i: usize) -> bool
    requires { (1 ≤ i) × (i ≤ length redo.now) }
    ensures { result ≡ marked redo.now i }
{
    redo[i - 1] == 1
}

// The flag that the delta gives record `i`: raised where it is to be redone, and otherwise 0, unchanged.
fn draft_flag(table: &[u64], i: usize, again: bool) -> u64
    ensures { result ≡ cond again (redone (flag_at table.now i)) 0 }
{
    if again {
        return crdt::redo(layout::flag_at(table, i));
    }
    0
}

// Writes record `i` of the table where it is to be redone or is the edited one, of that index.
pub fn draft_record(table: &[u64], delta: &mut [u64], i: usize, index: usize, redo: &[u8])
    requires { Steppable table.now redo.now delta.old i }
    ensures { delta.new ≡ stepped table.now redo.now index delta.old i }
{
    let again = is_marked(redo, i);
    if again | (i == index) {
        append(
            delta,
            layout::relation_at(table, i),
            layout::label_at(table, i),
            draft_flag(table, i, again),
        );
    }
}

// The label of a new record, and the stamp of a new value.
pub fn new_label(table: &[u64]) -> u64
    requires { clock_at table.now < largest_counter }
    ensures { result ≡ new_label (decode table.now) }
{
    crdt::Label::of(layout::clock(table) + 1, layout::replica(table)).0
}
