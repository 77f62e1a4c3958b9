// The delta of an edit: one changed record, and those that are marked to be redone, in list order.
#![tactic(auto)]

ghost use Rattle.std.specs.Prelude.{◌≡◌, ◌&&◌, ◌+◌, ◌≤◌, ◌<◌, eqb, length};
ghost use Rattle.crdt.specs.Flags.{deleted};
ghost use Rattle.crdt.specs.Cells.{reg};
ghost use Rattle.model.specs.Layout.{fields, most_relations, most_records, delta_words, clock_at, relation_at, label_at, flag_at};
ghost use Rattle.model.specs.Records.{place};
ghost use Rattle.model.specs.Tables.{decode, encode, record_of};
ghost use Rattle.model.specs.Edits.{new_label, new_record, flag_only, with_register};
ghost use Rattle.edit_delta.specs.Picked.{draft_of};
ghost use Rattle.edit_delta.specs.Drafting.{ReadyToInsert, ReadyToUpdate, ReadyToDelete, Source, Edited, key_of, drafted, end_of, registered, all_registered, Findable, Found};

// What is drafted: the edited record of a table, which is that of an index or a new one of relation `fresh`, and the records marked to be redone.
#[derive(Clone, Copy)]
struct Draft<'a> {
    table: &'a [u64],
    index: usize,
    fresh: usize,
    redo: &'a [u8],
    ghost source: { Source table.now redo.now },
    ghost edited: { Edited table.now index fresh },
}

impl Draft<'_> {
    // Writes those of the records of a relation, in label order.
    fn write_chain(self, delta: &mut [u64], relation: usize)
        requires { (delta.old ≡ encode (drafted self.table.now (key_of self.table.now self.index self.fresh) self.redo.now (place relation 0))) × (1 ≤ relation) × (relation ≤ most_relations) }
        ensures { delta.new ≡ encode (drafted self.entry.table.now (key_of self.entry.table.now self.entry.index self.entry.fresh) self.entry.redo.now (end_of self.entry.table.now relation)) }
    {
        let mut i = layout::first_at(self.table, relation);
        while 0 < i {
            edit_record::draft_record(self.table, delta, i, self.index, self.redo);
            i = layout::next_at(self.table, i);
        }
    }

    // Writes those of the records of a relation, and the new one, whose label is the largest.
    fn write_relation(self, delta: &mut [u64], relation: usize)
        requires { (delta.old ≡ encode (drafted self.table.now (key_of self.table.now self.index self.fresh) self.redo.now (place relation 0))) × (1 ≤ relation) × (relation ≤ most_relations) }
        ensures { delta.new ≡ encode (drafted self.entry.table.now (key_of self.entry.table.now self.entry.index self.entry.fresh) self.entry.redo.now (place (relation + 1) 0)) }
    {
        self.write_chain(delta, relation);
        if relation == self.fresh {
            edit_record::append(delta, relation, edit_record::new_label(self.table), 0);
        }
    }

    // Writes the delta with the edited record still empty.
    fn write(self, delta: &mut [u64])
        requires { length delta.old ≡ delta_words }
        ensures { delta.new ≡ encode (draft_of self.entry.table.now (clock_at self.entry.table.now) (flag_only fields (key_of self.entry.table.now self.entry.index self.entry.fresh) 0) self.entry.redo.now) }
    {
        edit_record::begin(
            delta,
            layout::replica(self.table),
            layout::clock(self.table),
        );
        for relation in 1..=layout::MOST_RELATIONS {
            self.write_relation(delta, relation);
        }
    }
}

// Whether record `i` has that relation and label.
fn is_at(delta: &[u64], i: usize, relation: usize, label: u64) -> bool
    ensures { result ≡ (eqb (relation_at delta.now i) relation && eqb (label_at delta.now i) label) }
{
    (layout::relation_at(delta, i) == relation) & (layout::label_at(delta, i) == label)
}

// The record of that relation and label.
fn find(delta: &[u64], relation: usize, label: u64) -> usize
    requires { Findable delta.now relation label }
    ensures { Found delta.now relation label result }
{
    for i in 1..=layout::used(delta) {
        if is_at(delta, i, relation, label) {
            return i;
        }
    }
    unreachable!()
}

// Writes a register into field `j`, counted from 0, of record `i`.
#[tactic(auto, unfolding(model::specs::Layout::base))]
fn write_register(delta: &mut [u64], i: usize, j: usize, value: u64, stamp: u64)
    requires { (i ≤ most_records) × (j < fields) }
    ensures { delta.new ≡ registered delta.old i j (reg value stamp) }
{
    let at = layout::base(i) + layout::HEAD_WORDS;
    layout::store(delta, at + j, value);
    layout::store(delta, at + layout::FIELDS + j, stamp);
}

// Writes values, all of one stamp, into the fields of record `i`.
fn write_values(delta: &mut [u64], i: usize, values: &[u64], stamp: u64)
    requires { (i ≤ most_records) × (length values.now ≤ fields) }
    ensures { delta.new ≡ all_registered (length values.now) delta.old i values.now stamp }
{
    for (j, &value) in values.iter().enumerate() {
        write_register(delta, i, j, value, stamp);
    }
}

// The delta of an insertion.
pub fn draft_insertion(
    schema: &[u64],
    table: &[u64],
    delta: &mut [u64],
    relation: usize,
    values: &[u64],
    redo: &[u8],
)
    requires { ReadyToInsert schema.now table.now delta.old relation values.now redo.now }
    ensures { delta.new ≡ encode (draft_of table.now (clock_at table.now + 1) (new_record fields (decode table.now) relation values.now) redo.now) }
{
    let draft = Draft {
        table,
        index: 0,
        fresh: relation,
        redo,
    };
    draft.write(delta);
    let label = edit_record::new_label(table);
    let at = find(delta, relation, label);
    write_values(delta, at, values, label);
    layout::store(delta, layout::CLOCK_WORD, layout::clock(table) + 1);
}

// The delta of an update of one field.
pub fn draft_update(
    schema: &[u64],
    table: &[u64],
    delta: &mut [u64],
    index: usize,
    field: usize,
    value: u64,
    redo: &[u8],
)
    requires { ReadyToUpdate schema.now table.now delta.old index field redo.now }
    ensures { delta.new ≡ encode (draft_of table.now (clock_at table.now + 1) (with_register (flag_only fields (record_of table.now index).key 0) field (reg value (new_label (decode table.now)))) redo.now) }
{
    let draft = Draft {
        table,
        index,
        fresh: 0,
        redo,
    };
    draft.write(delta);
    let at = find(
        delta,
        layout::relation_at(table, index),
        layout::label_at(table, index),
    );
    write_register(delta, at, field - 1, value, edit_record::new_label(table));
    layout::store(delta, layout::CLOCK_WORD, layout::clock(table) + 1);
}

// The delta of a deletion.
pub fn draft_deletion(schema: &[u64], table: &[u64], delta: &mut [u64], index: usize, redo: &[u8])
    requires { ReadyToDelete schema.now table.now delta.old index redo.now }
    ensures { delta.new ≡ encode (draft_of table.now (clock_at table.now) (flag_only fields (record_of table.now index).key (deleted (flag_at table.now index))) redo.now) }
{
    let draft = Draft {
        table,
        index,
        fresh: 0,
        redo,
    };
    draft.write(delta);
    let at = find(
        delta,
        layout::relation_at(table, index),
        layout::label_at(table, index),
    );
    layout::store(
        delta,
        layout::base(at) + layout::FLAG_WORD,
        crdt::delete(layout::flag_at(table, index)),
    );
}
