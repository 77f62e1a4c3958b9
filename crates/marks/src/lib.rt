// One byte per record, 1 for a member of a list of records and 0 for none; and the laws by which a chain is walked and by which
// such bytes stand for a list.
#![tactic(auto)]

ghost use Rattle.std.specs.Prelude.{◌≡◌};
ghost use Rattle.marks.specs.Marks.{is_marked};

// Whether the mark of record `i` is 1; there is no record 0, and a mark past the end is 0.
pub fn is_marked(marks: &[u8], i: usize) -> bool
    ensures { result ≡ is_marked marks.now i }
{
    if i < 1 {
        return false;
    }
    if marks.len() < i {
        return false;
    }
    marks[i - 1] == 1
}
