// Merging a table into another where that is known to be allowed. Both tables' chains of a relation are walked side by side, so that a merge is
// linear.
#![tactic(auto)]

ghost use Rattle.std.specs.Prelude.{◌≡◌, ◌+◌};
ghost use Rattle.model.specs.Records.{place};
ghost use Rattle.model.specs.Tables.{decode, encode};
ghost use Rattle.model.specs.Merge.{merged_records, merged, changes};
ghost use Rattle.merge_laws.specs.Absorb.{nth, records_in, with_records, absorb, Takeable, Chained, Taken, Mergeable};

// Takes in record `j` of the other table, whose link was sought: 1 where that changed or added a record, else 0.
fn take(own: &mut [u64], link: usize, other: &[u64], j: usize) -> usize
    requires { Takeable own.old other.now j link }
    ensures words { own.new ≡ encode (with_records (decode own.old) (absorb (records_in own.old) (nth (records_in other.now) j))) }
    ensures count { result ≡ changes (records_in own.old) (absorb (records_in own.old) (nth (records_in other.now) j)) }
{
    let used = layout::used(own);
    let relation = layout::relation_at(other, j);
    let label = layout::label_at(other, j);
    let i = merge_seek::space(own, link, relation, label);
    let changed = merge_join::join(own, i, other, j);
    usize::from(changed | (used < i))
}

// Takes in the records of a relation, both chains side by side; how many were changed or added.
fn take_chain(own: &mut [u64], other: &[u64], relation: usize) -> usize
    requires { Chained own.old other.now relation }
    ensures { Taken own.old own.new (records_in other.now) (place relation 0) (place (relation + 1) 0) result }
{
    let mut link = layout::FIRST_WORDS + (relation - 1);
    let mut j = layout::first_at(other, relation);
    let mut count = 0;
    while 0 < j {
        link = merge_seek::seek(own, link, layout::label_at(other, j));
        count += take(own, link, other, j);
        j = layout::next_at(other, j);
    }
    count
}

fn take_chains(own: &mut [u64], other: &[u64]) -> usize
    requires { Mergeable own.old other.now }
    ensures words { own.new ≡ encode (with_records (decode own.old) (merged_records (records_in own.old) (records_in other.now))) }
    ensures count { result ≡ changes (records_in own.old) (merged_records (records_in own.old) (records_in other.now)) }
{
    let mut count = 0;
    for relation in 1..=layout::MOST_RELATIONS {
        count += take_chain(own, other, relation);
    }
    count
}

// Merges the other table into the own, where there is room for its records; how many records were changed or added.
pub fn act(own: &mut [u64], other: &[u64]) -> usize
    requires { Mergeable own.old other.now }
    ensures words { own.new ≡ encode (merged (decode own.old) (decode other.now)) }
    ensures count { result ≡ changes (records_in own.old) (merged_records (records_in own.old) (records_in other.now)) }
{
    let clock = layout::clock(own).max(layout::clock(other));
    let count = take_chains(own, other);
    layout::store(own, layout::CLOCK_WORD, clock);
    count
}
