// The list's text in a lent buffer: what the buffer has no room for is left out.
#![tactic(auto)]

ghost use Rattle.std.specs.Prelude.{◌≡◌, [], ◌∷◌, ◌++◌, map, ◌+◌, ◌≤◌, None, MatchOption};
ghost use Rattle.model.specs.Layout.{most_records, used_at, field_count, kind_at, value_at};
ghost use Rattle.model.specs.Lists.{listed};
ghost use Rattle.model.specs.Calls.{entry_at, walk_given, walked};
ghost use Rattle.list_step.specs.Given.{given};
ghost use Rattle.list_text.specs.Text.{space, dot, digit, decimal_text, label_text, reference_text, value_text, values_text, line_text, lines_text, told_text, refused_text, shown_text};
ghost use Rattle.list_text.specs.Placed.{Placed};
ghost use Rattle.list_text.specs.Written.{Written};

use crdt::Label;
use judged::Judged;

const SPACE: u8 = 32;

const NEWLINE: u8 = 10;

const DOT: u8 = 46;

const DASH: u8 = 45;

// A text in a buffer, and the index after what is written of it.
#[derive(Drop)]
struct Out<'a> {
    bytes: &'a mut [u8],
    at: usize,
}

impl Out<'_> {
    // One character.
    fn put(&mut self, x: u8)
        ensures { Written self.old self.new (x ∷ []) }
    {
        let at = self.at;
        if at < self.bytes.len() {
            self.bytes[at] = x;
            self.at += 1;
        }
    }

    // All characters of a text.
    fn copy(&mut self, text: &[u8])
        ensures { Written self.old self.new text.now }
    {
        for x in text {
            self.put(*x);
        }
    }

    // A number in decimal.
    fn decimal(&mut self, n: u64)
        ensures { Written self.old self.new (decimal_text n) }
    {
        if n >= 10 {
            self.decimal(n / 10);
        }
        self.put(digit(n));
    }

    // A label, as counter.replica.
    fn label(&mut self, x: u64)
        ensures { Written self.old self.new (label_text x) }
    {
        self.decimal(Label(x).counter());
        self.put(DOT);
        self.decimal(Label(x).replica());
    }

    // A reference: a label, or a dash where it is empty.
    fn reference(&mut self, x: u64)
        ensures { Written self.old self.new (reference_text x) }
    {
        if x == 0 {
            self.put(DASH);
        } else {
            self.label(x);
        }
    }

    // A value by the kind of its field.
    fn value(&mut self, kind: u64, x: u64)
        ensures { Written self.old self.new (value_text kind x) }
    {
        if kind < layout::ABORT {
            self.decimal(x);
        } else {
            self.reference(x);
        }
    }

    // A space and a value.
    fn field(&mut self, kind: u64, x: u64)
        ensures { Written self.old self.new (space ∷ value_text kind x) }
    {
        self.put(SPACE);
        self.value(kind, x);
    }

    // The values of record `i`, which is of this relation.
    fn values(&mut self, schema: &[u64], table: &[u64], relation: usize, i: usize)
        ensures { Written self.old self.new (values_text (listed (field_count schema.now relation) (kind_at schema.now relation)) (listed (field_count schema.now relation) (value_at table.now i))) }
    {
        for j in 0..layout::field_count(schema, relation) {
            self.field(
                layout::kind_at(schema, relation, j + 1),
                layout::value_at(table, i, j + 1),
            );
        }
    }

    // Relation and label of a record.
    fn head(&mut self, relation: u64, x: u64)
        ensures { Written self.old self.new (decimal_text relation ++ (space ∷ label_text x)) }
    {
        self.decimal(relation);
        self.put(SPACE);
        self.label(x);
    }

    // The line of record `i`.
    fn line(&mut self, schema: &[u64], table: &[u64], i: usize)
        ensures { Written self.old self.new (line_text schema.now (entry_at schema.now table.now i)) }
    {
        let r = layout::relation_at(table, i);
        self.head(r as u64, layout::label_at(table, i));
        self.values(schema, table, r, i);
        self.put(NEWLINE);
    }

    // The lines of the records that the walk gives along a judged table, in its order. A table gives no more of them than it has used
    // records.
    fn lines_along(&mut self, t: Judged<'_>, marks: &[u8])
        requires { used_at t.table.now ≤ most_records }
        ensures { Written self.old self.new (lines_text t.entry.schema.now (map (entry_at t.entry.schema.now t.entry.table.now) (walked (used_at t.entry.table.now + 1) t.entry.schema.now t.entry.table.now marks.now 0).given)) }
    {
        let mut next = given_after(t, marks, 0);
        for turn in 0..layout::used(t.table) + 1 {
            let Some(i) = next else {
                break;
            };
            self.line(t.schema, t.table, i);
            next = given_after(t, marks, i);
        }
    }

    // The same of any table: no line where the walk refuses.
    fn lines(&mut self, schema: &[u64], table: &[u64], marks: &[u8])
        requires { used_at table.now ≤ most_records }
        ensures { Written self.old self.new (lines_text schema.now (map (entry_at schema.now table.now) (walked (used_at table.now + 1) schema.now table.now marks.now 0).given)) }
    {
        if let Some(t) = walkable(schema, table, marks) {
            self.lines_along(t, marks);
        }
    }

    // A word, a space, a number, and the end of the line.
    fn told(&mut self, word: &[u8], n: u64)
        ensures { Written self.old self.new (told_text word.now n) }
    {
        self.copy(word);
        self.decimal(n);
        self.put(NEWLINE);
    }
}

// The character of the last digit.
fn digit(n: u64) -> u8
    ensures { result ≡ digit n }
{
    48 + (n % 10) as u8
}

// The table judged once for all steps of the walk, each of which would judge it again; none where the first step refuses.
fn walkable<'a>(schema: &'a [u64], table: &'a [u64], marks: &[u8]) -> Option<Judged<'a>>
    ensures { MatchOption result (None ≡ given (walk_given schema.now table.now marks.now 0)) (λ t. (t.schema.now ≡ schema.now) × (t.table.now ≡ table.now)) }
{
    if list_step::wrong_length(schema, table, marks, 0) {
        return None;
    }
    judged::judge(schema, table).ok()
}

// The record that the walk gives after index `i`, none at the end and where it refuses.
fn given_after(t: Judged<'_>, marks: &[u8], i: usize) -> Option<usize>
    ensures { result ≡ given (walk_given t.entry.schema.now t.entry.table.now marks.now i) }
{
    if list_step::wrong_length(t.schema, t.table, marks, i) {
        return None;
    }
    list_step::after(t, marks, i)
}

// The text of a refusal; the index after it.
pub fn refused(number: u64, out: &mut [u8]) -> usize
    ensures { Placed out.old 0 (refused_text number) result out.new }
{
    let mut text = Out { bytes: out, at: 0 };
    text.told(b"refused ", number);
    text.at
}

// The text of a list with its shown count; the index after it.
pub fn shown(schema: &[u64], table: &[u64], marks: &[u8], count: usize, out: &mut [u8]) -> usize
    requires { used_at table.now ≤ most_records }
    ensures { Placed out.old 0 (shown_text schema.now count (map (entry_at schema.now table.now) (walked (used_at table.now + 1) schema.now table.now marks.now 0).given)) result out.new }
{
    let mut text = Out { bytes: out, at: 0 };
    text.told(b"shown ", count as u64);
    text.lines(schema, table, marks);
    text.at
}
