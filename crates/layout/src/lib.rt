// The layout of schemas and tables: its numbers, and the words of a lent slice by what they mean. Each function is total:
// a word past the end of a slice is 0, and a store there does nothing. Functions named `_in` read a form of `F` fields, the
// others the library's own, of `FIELDS`.
#![tactic(auto)]

ghost use Rattle.std.specs.Prelude.{◌≡◌, ◌≤◌, ◌+◌, ◌-◌, ◌^◌, set};
ghost use Rattle.model.specs.Layout.{fields};
ghost use Rattle.model.specs.Shapes.{block_in, count_in, kind_in, mask_in, base_in, capacity_in, next_in, relation_in, label_in, schema_length_in, table_length_in};
ghost use Rattle.model.specs.Layout.{word, block, base, relations, field_count, kind_at, mask_at, capacity_of, replica_at, clock_at, used_at, first_at, next_at, relation_at, label_at, flag_at, value_at, stamp_at};
ghost use Rattle.model.specs.Calls.{schema_length, table_length, delta_length, marks_length, bad_index};

// Fields of a record, and of a relation in the schema.
pub const FIELDS: usize = 12;

// The fields of the old form, before the library's own had twelve.
pub const OLD_FIELDS: usize = 8;

pub const MOST_RELATIONS: usize = 8;

pub const MOST_KEY_FIELDS: u32 = 4;

// A relation's block of the schema: field count, kinds, two key masks, a zero.
pub const BLOCK_WORDS: usize = FIELDS + 4;

pub const SCHEMA_WORDS: usize = 1 + MOST_RELATIONS * BLOCK_WORDS;

pub const HEADER_WORDS: usize = 16;

// The words of a record before its values: next, relation, label, flag.
pub const NEXT_WORD: usize = 0;

pub const RELATION_WORD: usize = 1;

pub const LABEL_WORD: usize = 2;

pub const FLAG_WORD: usize = 3;

pub const HEAD_WORDS: usize = 4;

pub const RECORD_WORDS: usize = HEAD_WORDS + 2 * FIELDS;

pub const MOST_RECORDS: usize = 4096;

pub const DELTA_RECORDS: usize = FIELDS + 1;

pub const DELTA_WORDS: usize = HEADER_WORDS + RECORD_WORDS * DELTA_RECORDS;

// The kinds of fields: plain, and the kinds below a reference to relation 1 with abort and with propagation.
pub const PLAIN: u64 = 1;

pub const ABORT: u64 = 16;

pub const PROPAGATION: u64 = 32;

// The words of the header.
pub const REPLICA_WORD: usize = 0;

pub const CLOCK_WORD: usize = 1;

pub const USED_WORD: usize = 2;

pub const ZERO_WORD: usize = 3;

pub const FIRST_WORDS: usize = 4;

// Where the zeros that end the header begin, and how many there are.
pub const LAST_WORDS: usize = FIRST_WORDS + MOST_RELATIONS;

pub const ZERO_WORDS: usize = HEADER_WORDS - LAST_WORDS;

// Indices above this lie past the end of every slice.
const LARGEST_INDEX: usize = 0x400_0000_0000_0000;

// Word `k` of the slice, 0 past its end.
pub fn word(t: &[u64], k: usize) -> u64
    ensures { result ≡ word t.now k }
{
    t.get(k).copied().unwrap_or(0)
}

// Word `k` set to `x`; nothing past the end.
pub fn store(t: &mut [u64], k: usize, x: u64)
    ensures { t.new ≡ set t.old k x }
{
    if k < t.len() {
        t[k] = x;
    }
}

// Where record `i` of a table of `F` fields begins.
pub fn base_in<const F: usize>(i: usize) -> usize
    requires { (F ≤ fields) × (i ≤ 2 ^ 58) }
    ensures { result ≡ base_in F i }
{
    HEADER_WORDS + (HEAD_WORDS + 2 * F) * i.saturating_sub(1)
}

// Where record `i` begins.
pub fn base(i: usize) -> usize
    requires { i ≤ 2 ^ 58 }
    ensures { result ≡ base i }
{
    base_in::<FIELDS>(i)
}

// Where block `r` of a schema of `F` fields begins.
pub fn block_in<const F: usize>(r: usize) -> usize
    requires { (F ≤ fields) × (r ≤ 2 ^ 58) }
    ensures { result ≡ block_in F r }
{
    1 + (F + 4) * r.saturating_sub(1)
}

// Where block `r` of a schema begins.
pub fn block(r: usize) -> usize
    requires { r ≤ 2 ^ 58 }
    ensures { result ≡ block r }
{
    block_in::<FIELDS>(r)
}

// The word that stands `part + j` words into record `i` of a table of `F` fields.
fn record_word<const F: usize>(t: &[u64], i: usize, part: usize, j: usize) -> u64
    requires { (F ≤ fields) × (part ≤ 20) }
    ensures { result ≡ word t.now (base_in F i + part + j) }
{
    if LARGEST_INDEX < i {
        return 0;
    }
    if t.len() < j {
        return 0;
    }
    word(t, base_in::<F>(i) + part + j)
}

// The word that stands `part + j` words into block `r` of a schema of `F` fields.
fn block_word<const F: usize>(s: &[u64], r: usize, part: usize, j: usize) -> u64
    requires { (F ≤ fields) × (part ≤ 20) }
    ensures { result ≡ word s.now (block_in F r + part + j) }
{
    if LARGEST_INDEX < r {
        return 0;
    }
    if s.len() < j {
        return 0;
    }
    word(s, block_in::<F>(r) + part + j)
}

// N of a table of `F` fields.
pub fn capacity_in<const F: usize>(t: &[u64]) -> usize
    requires { F ≤ fields }
    ensures { result ≡ capacity_in F t.now }
{
    t.len().saturating_sub(HEADER_WORDS) / (HEAD_WORDS + 2 * F)
}

// N of a table.
pub fn capacity(t: &[u64]) -> usize
    ensures { result ≡ capacity_of t.now }
{
    capacity_in::<FIELDS>(t)
}

// Whether a slice has the length of a schema of `F` fields.
pub fn schema_length_in<const F: usize>(s: &[u64]) -> bool
    requires { F ≤ fields }
    ensures { result ≡ schema_length_in F s.now }
{
    s.len() == 1 + MOST_RELATIONS * (F + 4)
}

// Whether a slice has the length of a schema.
pub fn schema_length(s: &[u64]) -> bool
    ensures { result ≡ schema_length s.now }
{
    schema_length_in::<FIELDS>(s)
}

// Whether a slice has the length of a table of `F` fields.
pub fn table_length_in<const F: usize>(t: &[u64]) -> bool
    requires { F ≤ fields }
    ensures { result ≡ table_length_in F t.now }
{
    if t.len() < HEADER_WORDS {
        return false;
    }
    let most = capacity_in::<F>(t) <= MOST_RECORDS;
    ((t.len() - HEADER_WORDS) % (HEAD_WORDS + 2 * F) == 0) & most
}

// Whether a slice has the length of a table.
pub fn table_length(t: &[u64]) -> bool
    ensures { result ≡ table_length t.now }
{
    table_length_in::<FIELDS>(t)
}

// Whether a slice has the length of a delta.
pub fn delta_length(d: &[u64]) -> bool
    ensures { result ≡ delta_length d.now }
{
    d.len() == DELTA_WORDS
}

// Marks are one byte for each record.
pub fn marks_length(t: &[u64], m: &[u8]) -> bool
    ensures { result ≡ marks_length t.now m.now }
{
    m.len() == capacity(t)
}

// Whether a record index is 0, above used or above N.
pub fn bad_index(t: &[u64], i: usize) -> bool
    ensures { result ≡ bad_index t.now i }
{
    (i == 0) | (used(t) < i) | (capacity(t) < i)
}

// The number of relations.
pub fn relations(s: &[u64]) -> usize
    ensures { result ≡ relations s.now }
{
    word(s, 0) as usize
}

// The number of fields of relation `r` of a schema of `F` fields.
pub fn count_in<const F: usize>(s: &[u64], r: usize) -> usize
    requires { F ≤ fields }
    ensures { result ≡ count_in F s.now r }
{
    block_word::<F>(s, r, 0, 0) as usize
}

// The number of fields of relation `r`.
pub fn field_count(s: &[u64], r: usize) -> usize
    ensures { result ≡ field_count s.now r }
{
    count_in::<FIELDS>(s, r)
}

// The kind of field `j` of relation `r` of a schema of `F` fields.
pub fn kind_in<const F: usize>(s: &[u64], r: usize, j: usize) -> u64
    requires { F ≤ fields }
    ensures { result ≡ kind_in F s.now r j }
{
    block_word::<F>(s, r, 0, j)
}

// The kind of field `j` of relation `r`.
pub fn kind_at(s: &[u64], r: usize, j: usize) -> u64
    ensures { result ≡ kind_at s.now r j }
{
    kind_in::<FIELDS>(s, r, j)
}

// Key mask `m`, 1 or 2, of relation `r` of a schema of `F` fields.
pub fn mask_in<const F: usize>(s: &[u64], r: usize, m: usize) -> u64
    requires { F ≤ fields }
    ensures { result ≡ mask_in F s.now r m }
{
    block_word::<F>(s, r, F, m)
}

// Key mask `m`, 1 or 2, of relation `r`.
pub fn mask_at(s: &[u64], r: usize, m: usize) -> u64
    ensures { result ≡ mask_at s.now r m }
{
    mask_in::<FIELDS>(s, r, m)
}

// The replica number of a table.
pub fn replica(t: &[u64]) -> u64
    ensures { result ≡ replica_at t.now }
{
    word(t, REPLICA_WORD)
}

// The clock of a table.
pub fn clock(t: &[u64]) -> u64
    ensures { result ≡ clock_at t.now }
{
    word(t, CLOCK_WORD)
}

// The number of used records.
pub fn used(t: &[u64]) -> usize
    ensures { result ≡ used_at t.now }
{
    word(t, USED_WORD) as usize
}

// The first record of relation `r`, 0 for none.
pub fn first_at(t: &[u64], r: usize) -> usize
    ensures { result ≡ first_at t.now r }
{
    word(t, FIRST_WORDS.saturating_add(r.saturating_sub(1))) as usize
}

// The record after record `i` in its chain, 0 for none, in a table of `F` fields.
pub fn next_in<const F: usize>(t: &[u64], i: usize) -> usize
    requires { F ≤ fields }
    ensures { result ≡ next_in F t.now i }
{
    record_word::<F>(t, i, NEXT_WORD, 0) as usize
}

// The record after record `i` in its chain, 0 for none.
pub fn next_at(t: &[u64], i: usize) -> usize
    ensures { result ≡ next_at t.now i }
{
    next_in::<FIELDS>(t, i)
}

// The relation of record `i` of a table of `F` fields.
pub fn relation_in<const F: usize>(t: &[u64], i: usize) -> usize
    requires { F ≤ fields }
    ensures { result ≡ relation_in F t.now i }
{
    record_word::<F>(t, i, RELATION_WORD, 0) as usize
}

// The relation of record `i`.
pub fn relation_at(t: &[u64], i: usize) -> usize
    ensures { result ≡ relation_at t.now i }
{
    relation_in::<FIELDS>(t, i)
}

// The label of record `i` of a table of `F` fields.
pub fn label_in<const F: usize>(t: &[u64], i: usize) -> u64
    requires { F ≤ fields }
    ensures { result ≡ label_in F t.now i }
{
    record_word::<F>(t, i, LABEL_WORD, 0)
}

// The label of record `i`.
pub fn label_at(t: &[u64], i: usize) -> u64
    ensures { result ≡ label_at t.now i }
{
    label_in::<FIELDS>(t, i)
}

// The flag of record `i`.
pub fn flag_at(t: &[u64], i: usize) -> u64
    ensures { result ≡ flag_at t.now i }
{
    record_word::<FIELDS>(t, i, FLAG_WORD, 0)
}

// The value of field `j` of record `i`, and its stamp.
pub fn value_at(t: &[u64], i: usize, j: usize) -> u64
    ensures { result ≡ value_at t.now i j }
{
    record_word::<FIELDS>(t, i, HEAD_WORDS - 1, j)
}

// The stamp of field `j` of record `i`.
pub fn stamp_at(t: &[u64], i: usize, j: usize) -> u64
    ensures { result ≡ stamp_at t.now i j }
{
    record_word::<FIELDS>(t, i, HEAD_WORDS - 1 + FIELDS, j)
}
