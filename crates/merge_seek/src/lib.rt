// Where a record of the other table belongs in the own, and the place made for it. A link is the index of the word that holds the number of
// the next record: the first word of a relation, or the next word of a record.
#![tactic(auto)]

ghost use Rattle.std.specs.Prelude.{◌≡◌, ℕ, ◌≤◌};
ghost use Rattle.model.specs.Layout.{most_relations, most_records, used_at};
ghost use Rattle.model.specs.Records.{place, position};
ghost use Rattle.model.specs.Tables.{decode, encode};
ghost use Rattle.merge_laws.specs.Absorb.{records_in, with_records, spaced, Whole, Linked, precedes, meets, Sought, Seekable, Open, added};

// A table whose words are the encoding of a value that fits it, so that its chains lead through its records.
#[derive(Clone, Copy)]
pub struct WholeTable<'a> {
    pub words: &'a [u64],
    pub ghost whole: { Whole words.now },
}

// Whether the record that word `link` leads to has a label below `label`.
fn precedes(own: &[u64], link: usize, label: u64) -> bool
    ensures { result ≡ precedes own.now link label }
{
    let i = layout::word(own, link) as usize;
    (0 < i) & (layout::label_at(own, i) < label)
}

// Whether the record that word `link` leads to has that label.
pub fn meets(own: &[u64], link: usize, label: u64) -> bool
    ensures { result ≡ meets own.now link label }
{
    let i = layout::word(own, link) as usize;
    (0 < i) & (layout::label_at(own, i) == label)
}

// The link where a label belongs, from the link `from` on.
pub fn seek(own: &[u64], from: usize, label: u64) -> usize
    requires { Seekable own.now label from }
    ensures { (r : ℕ) → 1 ≤ r → r ≤ most_relations → Linked (records_in own.now) r label from → Sought own.now r label result }
{
    let mut link = from;
    while precedes(own, link, label) {
        link = layout::base(layout::word(own, link) as usize);
    }
    link
}

// Adds a record with flag 0 and no stamps behind the others, and links it in.
fn add(own: &mut [u64], link: usize, relation: usize, label: u64)
    requires { used_at own.old ≤ most_records }
    ensures { own.new ≡ added own.old link relation label }
{
    let next = layout::word(own, link);
    let new = layout::used(own) + 1;
    let at = layout::base(new);
    layout::store(own, at, next);
    layout::store(own, at + layout::RELATION_WORD, relation as u64);
    layout::store(own, at + layout::LABEL_WORD, label);
    layout::store(own, layout::USED_WORD, new as u64);
    layout::store(own, link, new as u64);
}

// The index of the record of that relation and label, whose link was sought; it is added where there is none.
pub fn space(own: &mut [u64], link: usize, relation: usize, label: u64) -> usize
    requires { Open own.old relation label link }
    ensures words { own.new ≡ encode (with_records (decode own.old) (spaced (records_in own.old) (place relation label))) }
    ensures index { result ≡ position (place relation label) (spaced (records_in own.old) (place relation label)) }
{
    if meets(own, link, label) {
        return layout::word(own, link) as usize;
    }
    add(own, link, relation, label);
    layout::used(own)
}
