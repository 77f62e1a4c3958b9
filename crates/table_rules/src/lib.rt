// The rules of a table that stand apart from its chains: the header, the first indices, and each record by its own words.
#![tactic(auto)]

ghost use Rattle.std.specs.Prelude.{◌≡◌, true, ◌&&◌, ◌+◌, ◌*◌, ◌-◌, ◌≤◌, eqb, length};
ghost use Rattle.crdt.specs.Labels.{largest_counter};
ghost use Rattle.model.specs.Layout.{fields, most_relations, most_records, head_words, first_words, zero_words, word, relations, clock_at, used_at};
ghost use Rattle.model.specs.Lists.{each};
ghost use Rattle.model.specs.WellFormed.{header_rules, firsts_rule, empty_above, field_rule};
ghost use Rattle.model.specs.Shapes.{capacity_in, header_rules_in, record_rules_in, counters_rule_in};
ghost use Rattle.table_rules.specs.Rows.{label_under, counters_under, field_placed, fields_good_to, row_good};

use crdt::Label;
use layout::FIELDS;

// The zeros that end the header.
pub fn zero_words(t: &[u64]) -> bool
    ensures { result ≡ each zero_words (λ j. eqb (word t.now (first_words + most_relations + (j - 1))) 0) }
{
    let mut good = true;
    for j in 0..layout::ZERO_WORDS {
        good &= layout::word(t, layout::LAST_WORDS + j) == 0;
    }
    good
}

// The header's own words lie in their ranges, in a table of `F` fields.
pub fn header_rules_in<const F: usize>(t: &[u64]) -> bool
    requires { F ≤ fields }
    ensures { result ≡ header_rules_in F t.now }
{
    let replica = layout::replica(t);
    let clock = layout::clock(t);
    let fits = layout::used(t) <= layout::capacity_in::<F>(t);
    let third = layout::word(t, layout::ZERO_WORD) == 0;
    let zeros = zero_words(t);
    ((1 <= replica) & (replica <= Label::LARGEST_REPLICA))
        & (clock <= Label::LARGEST_COUNTER)
        & fits
        & third
        & zeros
}

// The header's own words lie in their ranges.
pub fn header_rules(t: &[u64]) -> bool
    ensures { result ≡ header_rules t.now }
{
    header_rules_in::<FIELDS>(t)
}

// The first indices are none above used.
pub fn firsts_rule(t: &[u64]) -> bool
    ensures { result ≡ firsts_rule t.now }
{
    let used = layout::used(t);
    let mut good = true;
    for r in 1..=layout::MOST_RELATIONS {
        good &= layout::first_at(t, r) <= used;
    }
    good
}

// Chains of relations above R are empty.
pub fn empty_above(schema: &[u64], t: &[u64]) -> bool
    ensures { result ≡ empty_above schema.now t.now }
{
    let most = layout::relations(schema);
    let mut good = true;
    for r in 1..=layout::MOST_RELATIONS {
        good &= (r <= most) | (layout::first_at(t, r) == 0);
    }
    good
}

// A clock in its range.
#[derive(Clone, Copy)]
pub struct Clock {
    pub counter: u64,
    pub ghost within: { counter ≤ largest_counter },
}

impl Clock {
    // Whether a number is a label whose counter is none above the clock.
    pub fn label_under(self, x: u64) -> bool
        ensures { result ≡ label_under self.counter x }
    {
        let counter = Label(x).counter();
        (1 <= counter) & (counter <= self.counter) & (1 <= Label(x).replica())
    }

    // The rule of a field, with the counters of its stamp and reference.
    fn field_good(self, kind: u64, value: u64, stamp: u64) -> bool
        ensures { result ≡ (field_rule kind value stamp && counters_under self.counter kind value stamp) }
    {
        if stamp == 0 {
            return value == 0;
        }
        if !self.label_under(stamp) {
            return false;
        }
        if kind < layout::ABORT {
            return true;
        }
        if value == 0 {
            return true;
        }
        self.label_under(value)
    }

    // Field `j`, where there are `count` fields: zeros above them.
    pub fn field_placed(self, count: u64, j: u64, kind: u64, value: u64, stamp: u64) -> bool
        ensures { result ≡ field_placed self.counter count j kind value stamp }
    {
        if j <= count {
            return self.field_good(kind, value, stamp);
        }
        (value == 0) & (stamp == 0)
    }
}

// The words of a record of `F` fields, with those of its relation's block, under a clock.
#[derive(Clone, Copy)]
struct Row<'a, const F: usize> {
    clock: Clock,
    block: &'a [u64],
    words: &'a [u64],
    ghost block_long: { length block.now ≡ F + 4 },
    ghost long: { length words.now ≡ head_words + 2 * F },
}

impl<'a, const F: usize> Row<'a, F> {
    // The fields behind the first `from` up to the first `to`, where the first `from` are good.
    #[inline(always)]
    fn fields_between(self, from: usize, to: usize) -> bool
        requires { (from ≤ to) × (to ≤ F) × (fields_good_to F from self.clock.counter self.block.now self.words.now ≡ true) }
        ensures { result ≡ fields_good_to F to self.entry.clock.counter self.entry.block.now self.entry.words.now }
    {
        let count = self.block[0];
        for j in from..to {
            let value = self.words[layout::HEAD_WORDS + j];
            let stamp = self.words[layout::HEAD_WORDS + F + j];
            if !self
                .clock
                .field_placed(count, j as u64 + 1, self.block[j + 1], value, stamp)
            {
                return false;
            }
        }
        true
    }

    // The fields, by the words of the block and the record. The compiler unrolls a loop over half of the fields, and not one
    // over all of them, which takes longer for each field.
    fn fields_good(self) -> bool
        ensures { result ≡ fields_good_to F F self.entry.clock.counter self.entry.block.now self.entry.words.now }
    {
        if !self.fields_between(0, F / 2) {
            return false;
        }
        self.fields_between(F / 2, F)
    }
}

// The records of a table of `F` fields under a schema: the numbers that their rules ask for are in their ranges.
#[derive(Clone, Copy)]
pub struct Records<'a, const F: usize> {
    pub schema: &'a [u64],
    pub table: &'a [u64],
    ghost form: { F ≤ fields },
    ghost long: { length schema.now ≡ 1 + most_relations * (F + 4) },
    ghost related: { relations schema.now ≤ most_relations },
    ghost clocked: { clock_at table.now ≤ largest_counter },
}

impl<'a, const F: usize> Records<'a, F> {
    // A record by its own words.
    fn row_good(self, words: &[u64]) -> bool
        requires { length words.now ≡ head_words + 2 * F }
        ensures { result ≡ row_good F self.entry.schema.now (clock_at self.entry.table.now) words.now }
    {
        let clock = Clock {
            counter: layout::clock(self.table),
        };
        let relation = words[layout::RELATION_WORD] as usize;
        if relation < 1 {
            return false;
        }
        if layout::relations(self.schema) < relation {
            return false;
        }
        if !clock.label_under(words[layout::LABEL_WORD]) {
            return false;
        }
        if crdt::LARGEST_FLAG < words[layout::FLAG_WORD] {
            return false;
        }
        let b = layout::block_in::<F>(relation);
        let block = &self.schema[b..b + (F + 4)];
        Row::<F> {
            clock,
            block,
            words,
        }
        .fields_good()
    }

    // The own words of record `i`, and its counters under the clock.
    pub fn good(self, i: usize) -> bool
        requires { (1 ≤ i) × (i ≤ capacity_in F self.table.now) }
        ensures { result ≡ (record_rules_in F self.entry.schema.now self.entry.table.now i && counters_rule_in F self.entry.schema.now self.entry.table.now i) }
    {
        let a = layout::base_in::<F>(i);
        self.row_good(&self.table[a..a + (layout::HEAD_WORDS + 2 * F)])
    }
}

// A schema and a table of `F` fields whose records can be read: the numbers that say where they lie are in their ranges.
#[derive(Clone, Copy)]
pub struct Readable<'a, const F: usize> {
    pub schema: &'a [u64],
    pub table: &'a [u64],
    ghost form: { F ≤ fields },
    ghost long: { length schema.now ≡ 1 + most_relations * (F + 4) },
    ghost related: { relations schema.now ≤ most_relations },
    ghost clocked: { clock_at table.now ≤ largest_counter },
    ghost stored: { used_at table.now ≤ capacity_in F table.now },
    ghost few: { used_at table.now ≤ most_records },
}

impl<'a, const F: usize> Readable<'a, F> {
    // The own words of record `i`, and its counters under the clock.
    pub fn record_good(self, i: usize) -> bool
        requires { (1 ≤ i) × (i ≤ used_at self.table.now) }
        ensures { result ≡ (record_rules_in F self.entry.schema.now self.entry.table.now i && counters_rule_in F self.entry.schema.now self.entry.table.now i) }
    {
        Records::<F> {
            schema: self.schema,
            table: self.table,
        }
        .good(i)
    }
}
