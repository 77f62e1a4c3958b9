// The calls of document 01 as C functions, and the version. A slice is a pointer and a length; the answer is the page's number. No rule
// stands here.
#![tactic(auto)]

ghost use Rattle.std.specs.Prelude.{◌≡◌};
ghost use Rattle.model.specs.Calls.{schema_number, table_number, start_number, start_table, values_number, values_first, merge_number, merge_table, merge_changed, marks_number, marks_count, marks_marks, walk_number, walk_given, walk_place, insertion_number, insertion_label, insertion_table, insertion_delta, update_number, update_table, update_delta, deletion_number, deletion_table, deletion_delta};
ghost use Rattle.model.specs.Compare.{compare_number, compare_verdict};
ghost use Rattle.model.specs.Lookup.{lookup_number, lookup_index};
ghost use Rattle.model.specs.Shapes.{widen_number, widen_schema, widen_table, narrow_number, narrow_schema, narrow_table};
ghost use Rattle.herd.specs.Version.{version};

// The parts of the version. CHANGELOG.md tells when each one rises.
const MAJOR: u64 = 4;

const MINOR: u64 = 1;

const PATCH: u64 = 0;

const VERSION: u64 = MAJOR * 10_000 + MINOR * 100 + PATCH;

// The version of the linked library, which a caller compares with that of its header.
#[unsafe(no_mangle)]
pub extern "C" fn herd_version() -> u64
    ensures { result ≡ version }
{
    VERSION
}

// Schema check for C: the answer's number.
#[unsafe(no_mangle)]
pub extern "C" fn herd_schema_check(schema: &[u64]) -> u64
    ensures { result ≡ schema_number schema.now }
{
    answers::number(schema::schema_check(schema))
}

// Table check for C: the answer's number.
#[unsafe(no_mangle)]
pub extern "C" fn herd_table_check(schema: &[u64], table: &[u64]) -> u64
    ensures { result ≡ table_number schema.now table.now }
{
    answers::number(table::table_check(schema, table))
}

// Starting a table for C: the answer's number.
#[unsafe(no_mangle)]
pub extern "C" fn herd_start(table: &mut [u64], replica: u64) -> u64
    ensures answer { result ≡ start_number table.old replica }
    ensures words { table.new ≡ start_table table.old replica }
{
    answers::number(table_start::start(table, replica))
}

// Merge for C: the answer's number; `changed` becomes the number of records changed or added, 0 in a refusal.
#[unsafe(no_mangle)]
pub extern "C" fn herd_merge(
    schema: &[u64],
    own: &mut [u64],
    other: &[u64],
    changed: &mut u64,
) -> u64
    ensures answer { result ≡ merge_number schema.now own.old other.now }
    ensures count { changed.new ≡ merge_changed schema.now own.old other.now }
    ensures words { own.new ≡ merge_table schema.now own.old other.now }
{
    let answer = merge::merge(schema, own, other);
    *changed = answer.unwrap_or(0) as u64;
    answers::number(answer)
}

// Which of two copies is ahead, for C: the answer's number; `verdict` becomes 1 to 4, 0 in a refusal.
#[unsafe(no_mangle)]
pub extern "C" fn herd_compare(
    schema: &[u64],
    first: &[u64],
    second: &[u64],
    verdict: &mut u64,
) -> u64
    ensures answer { result ≡ compare_number schema.now first.now second.now }
    ensures verdict { verdict.new ≡ compare_verdict schema.now first.now second.now }
{
    let answer = compare::compare(schema, first, second);
    *verdict = answer.map_or(0, u64::from);
    answers::number(answer)
}

// A record looked up by relation and label, for C: the answer's number; `index` becomes its index, 0 where it is not known and in a refusal.
#[unsafe(no_mangle)]
pub extern "C" fn herd_lookup(
    schema: &[u64],
    table: &[u64],
    relation: usize,
    label: u64,
    index: &mut u64,
) -> u64
    ensures answer { result ≡ lookup_number schema.now table.now relation label }
    ensures position { index.new ≡ lookup_index schema.now table.now relation label }
{
    let answer = lookup::lookup(schema, table, relation, label);
    *index = answers::index(answer) as u64;
    answers::number(answer)
}

// An old schema and table turned into new ones, for C: the answer's number.
#[unsafe(no_mangle)]
pub extern "C" fn herd_widen(
    old_schema: &[u64],
    old_table: &[u64],
    schema: &mut [u64],
    table: &mut [u64],
) -> u64
    ensures answer { result ≡ widen_number old_schema.now old_table.now schema.old table.old }
    ensures schema_words { schema.new ≡ widen_schema old_schema.now old_table.now schema.old table.old }
    ensures table_words { table.new ≡ widen_table old_schema.now old_table.now schema.old table.old }
{
    answers::number(shapes::widen(old_schema, old_table, schema, table))
}

// A schema and a table turned back into old ones, for C: the answer's number.
#[unsafe(no_mangle)]
pub extern "C" fn herd_narrow(
    schema: &[u64],
    table: &[u64],
    old_schema: &mut [u64],
    old_table: &mut [u64],
) -> u64
    ensures answer { result ≡ narrow_number schema.now table.now old_schema.old old_table.old }
    ensures schema_words { old_schema.new ≡ narrow_schema schema.now table.now old_schema.old old_table.old }
    ensures table_words { old_table.new ≡ narrow_table schema.now table.now old_schema.old old_table.old }
{
    answers::number(shapes::narrow(schema, table, old_schema, old_table))
}

// Insertion for C: the answer's number; `label` becomes the label of the new record, 0 in a refusal.
#[unsafe(no_mangle)]
pub extern "C" fn herd_insert(
    schema: &[u64],
    own: &mut [u64],
    delta: &mut [u64],
    relation: usize,
    values: &[u64],
    label: &mut u64,
) -> u64
    ensures answer { result ≡ insertion_number schema.now own.old delta.old relation values.now }
    ensures name { label.new ≡ insertion_label schema.now own.old delta.old relation values.now }
    ensures words { own.new ≡ insertion_table schema.now own.old delta.old relation values.now }
    ensures delta_words { delta.new ≡ insertion_delta schema.now own.old delta.old relation values.now }
{
    let answer = edits::insertion(schema, own, delta, relation, values);
    *label = answer.unwrap_or(0);
    answers::number(answer)
}

// Update for C: the answer's number.
#[unsafe(no_mangle)]
pub extern "C" fn herd_update(
    schema: &[u64],
    own: &mut [u64],
    delta: &mut [u64],
    index: usize,
    field: usize,
    value: u64,
) -> u64
    ensures answer { result ≡ update_number schema.now own.old delta.old index field value }
    ensures words { own.new ≡ update_table schema.now own.old delta.old index field value }
    ensures delta_words { delta.new ≡ update_delta schema.now own.old delta.old index field value }
{
    answers::number(edits::update(schema, own, delta, index, field, value))
}

// Deletion for C: the answer's number.
#[unsafe(no_mangle)]
pub extern "C" fn herd_delete(
    schema: &[u64],
    own: &mut [u64],
    delta: &mut [u64],
    index: usize,
) -> u64
    ensures answer { result ≡ deletion_number schema.now own.old delta.old index }
    ensures words { own.new ≡ deletion_table schema.now own.old delta.old index }
    ensures delta_words { delta.new ≡ deletion_delta schema.now own.old delta.old index }
{
    answers::number(edits::deletion(schema, own, delta, index))
}

// Shown marks for C: the answer's number; `shown` becomes the number of shown records, 0 in a refusal.
#[unsafe(no_mangle)]
pub extern "C" fn herd_marks(
    schema: &[u64],
    table: &[u64],
    marks: &mut [u8],
    shown: &mut u64,
) -> u64
    ensures answer { result ≡ marks_number schema.now table.now marks.old }
    ensures count { shown.new ≡ marks_count schema.now table.now marks.old }
    ensures bytes { marks.new ≡ marks_marks schema.now table.now marks.old }
{
    let answer = list_shown::marks(schema, table, marks);
    *shown = answer.unwrap_or(0) as u64;
    answers::number(answer)
}

// The list walk for C: the answer's number; `given` becomes the index of the record given, 0 at the end and in a refusal; `place` moves to it, and otherwise stays.
#[unsafe(no_mangle)]
pub extern "C" fn herd_walk(
    schema: &[u64],
    table: &[u64],
    marks: &[u8],
    place: &mut u64,
    given: &mut u64,
) -> u64
    ensures answer { result ≡ walk_number schema.now table.now marks.now place.old }
    ensures index { given.new ≡ walk_given schema.now table.now marks.now place.old }
    ensures moved { place.new ≡ walk_place schema.now table.now marks.now place.old }
{
    let m = list_walk::next_from(schema, table, marks, *place as usize);
    *place = m.index as u64;
    *given = answers::index(m.answer) as u64;
    answers::number(m.answer)
}

// The values call for C: the answer's number; `first` becomes the word of the table at which the record's values begin, 0 in a refusal.
#[unsafe(no_mangle)]
pub extern "C" fn herd_values(table: &[u64], index: usize, first: &mut u64) -> u64
    ensures answer { result ≡ values_number table.now index }
    ensures word { first.new ≡ values_first table.now index }
{
    if table_start::values(table, index).len() == 0 {
        *first = 0;
        return 1;
    }
    *first = (layout::base(index) + layout::HEAD_WORDS) as u64;
    0
}
