// Words of `V` fields written as words of `W` fields: a row, a block, a schema, a table.
#![tactic(auto)]

ghost use Rattle.std.specs.Prelude.{◌≡◌, cond, ◌+◌, ◌*◌, ◌≤◌, leb, length, drop};
ghost use Rattle.std.proofs.Math.Seq.{paste};
ghost use Rattle.model.specs.Layout.{fields, most_relations, most_records, header_words, head_words, word};
ghost use Rattle.model.specs.Shapes.{capacity_in, turned_schema, turned_table};
ghost use Rattle.shape_turn.specs.Rows.{fields_after, row_turned, block_turned};

// Copies `n` words, from word `a` of one slice on, to word `b` of the other on.
fn paste(from: &[u64], a: usize, to: &mut [u64], b: usize, n: usize)
    requires { (a + n ≤ length from.now) × (b + n ≤ length to.old) }
    ensures { to.new ≡ paste to.old b (drop a from.now) n }
{
    to[b..b + n].copy_from_slice(&from[a..a + n]);
}

// Field `j` of the `V` fields behind word `p`; what they lack is 0.
fn field_word<const V: usize>(from: &[u64], p: usize, j: usize) -> u64
    requires { (p + V + 1 ≤ length from.now) × (1 ≤ j) }
    ensures { result ≡ cond (leb j V) (word from.now (p + j)) 0 }
{
    if j <= V {
        return from[p + j];
    }
    0
}

// Writes `W` fields from word `b` on, out of the `V` fields behind word `p`.
fn turn_fields<const V: usize, const W: usize>(from: &[u64], p: usize, to: &mut [u64], b: usize)
    requires { (p + V + 1 ≤ length from.now) × (b + W ≤ length to.old) }
    ensures { to.new ≡ paste to.old b (fields_after V W from.now p) W }
{
    for j in 0..W {
        to[b + j] = field_word::<V>(from, p, j + 1);
    }
}

// The row that the record at word `p` is turned into.
fn turn_row<const V: usize, const W: usize>(t: &[u64], p: usize, row: &mut [u64])
    requires { (V ≤ fields) × (W ≤ fields) × (p + (head_words + 2 * V) ≤ length t.now) × (length row.old ≡ head_words + 2 * W) }
    ensures { row.new ≡ row_turned V W t.now p }
{
    let values = p + (layout::HEAD_WORDS - 1);
    paste(t, p, row, 0, layout::HEAD_WORDS);
    turn_fields::<V, W>(t, values, row, layout::HEAD_WORDS);
    turn_fields::<V, W>(t, values + V, row, layout::HEAD_WORDS + W);
}

// The block that the block at word `p` is turned into.
fn turn_block<const V: usize, const W: usize>(s: &[u64], p: usize, block: &mut [u64])
    requires { (V ≤ fields) × (W ≤ fields) × (p + (V + 4) ≤ length s.now) × (length block.old ≡ W + 4) }
    ensures { block.new ≡ block_turned V W s.now p }
{
    paste(s, p, block, 0, 1);
    turn_fields::<V, W>(s, p, block, 1);
    paste(s, p + V + 1, block, W + 1, 3);
}

// Writes a schema of `W` fields out of one of `V` fields.
pub fn turn_schema<const V: usize, const W: usize>(s: &[u64], to: &mut [u64])
    requires { (V ≤ fields) × (W ≤ fields) × (length s.now ≡ 1 + (V + 4) * most_relations) × (length to.old ≡ 1 + (W + 4) * most_relations) }
    ensures { to.new ≡ turned_schema V W s.now }
{
    paste(s, 0, to, 0, 1);
    for r in 0..layout::MOST_RELATIONS {
        let q = 1 + (W + 4) * r;
        turn_block::<V, W>(s, 1 + (V + 4) * r, &mut to[q..q + (W + 4)]);
    }
}

// Writes a table of `W` fields out of one of `V` fields, with as many records.
pub fn turn_table<const V: usize, const W: usize>(t: &[u64], to: &mut [u64])
    requires { (V ≤ fields) × (W ≤ fields) × (capacity_in V t.now ≤ most_records)
        × (length t.now ≡ header_words + (head_words + 2 * V) * capacity_in V t.now) × (length to.old ≡ header_words + (head_words + 2 * W) * capacity_in V t.now) }
    ensures { to.new ≡ turned_table V W t.now }
{
    paste(t, 0, to, 0, layout::HEADER_WORDS);
    for i in 0..layout::capacity_in::<V>(t) {
        let q = layout::HEADER_WORDS + (layout::HEAD_WORDS + 2 * W) * i;
        let row = &mut to[q..q + (layout::HEAD_WORDS + 2 * W)];
        turn_row::<V, W>(
            t,
            layout::HEADER_WORDS + (layout::HEAD_WORDS + 2 * V) * i,
            row,
        );
    }
}
