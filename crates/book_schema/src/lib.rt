// The schema of the herd book, as a constant, and the numbers of its relations.
#![tactic(auto)]

ghost use Rattle.std.specs.Prelude.{◌≡◌};
ghost use Rattle.model.specs.Book.{book};

pub const GROUP: usize = 1;

pub const COW: usize = 2;

pub const ROBOT: usize = 3;

pub const MILKING: usize = 4;

pub const CLEANING: usize = 5;

pub const TREATMENT: usize = 6;

// A block for each relation: field count, kinds, two key masks, a zero.
const SCHEMA: [u64; layout::SCHEMA_WORDS] = [
    6, 1, 1, 0, 0, 0, 0, 0, 0, 0, 0, 0, 0, 0, 1, 0, 0, 3, 1, 1, 17, 0, 0, 0, 0, 0, 0, 0, 0, 0, 1,
    2, 0, 1, 1, 0, 0, 0, 0, 0, 0, 0, 0, 0, 0, 0, 1, 0, 0, 5, 34, 19, 1, 1, 1, 0, 0, 0, 0, 0, 0, 0,
    0, 0, 0, 3, 19, 1, 1, 0, 0, 0, 0, 0, 0, 0, 0, 0, 0, 0, 0, 3, 34, 1, 1, 0, 0, 0, 0, 0, 0, 0, 0,
    0, 0, 0, 0, 0, 0, 0, 0, 0, 0, 0, 0, 0, 0, 0, 0, 0, 0, 0, 0, 0, 0, 0, 0, 0, 0, 0, 0, 0, 0, 0, 0,
    0, 0, 0, 0,
];

// The schema's words.
pub fn schema() -> [u64; layout::SCHEMA_WORDS]
    ensures { result ≡ book }
{
    SCHEMA
}
