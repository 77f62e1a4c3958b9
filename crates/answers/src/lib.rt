// What the calls of document 01 answer, "What a call hands back": a value, or a refusal with the page's number.
#![tactic(auto)]

ghost use Rattle.std.specs.Prelude.{◌≡◌};
ghost use Rattle.answers.specs.Refused.{refusal_number, verdict_number, number_of, index_of};

// Why a call refuses.
#[derive(Clone, Copy, Debug, PartialEq, Eq)]
pub enum Refusal {
    // A lent slice other than an insertion's values has a wrong length, or a record index is 0, above used or above N.
    WrongLength = 1,
    SchemaBroken = 2,
    // The own table, in a comparison the first, is not well-formed.
    TableBroken = 3,
    // The other table, in a comparison the second, is not well-formed.
    OtherBroken = 4,
    // The relation is not 1 to R, or at start the replica not 1 to 255.
    RelationOrReplica = 5,
    // The record to edit is not shown.
    NotShown = 6,
    // The field is not 1 to F, the value count is wrong, or a reference is neither 0 nor a label.
    BadValue = 7,
    // A nonempty new target is not shown.
    TargetHidden = 8,
    // Another standing record conflicts with the new values on a key.
    KeyTaken = 9,
    // Another standing record references the record by abort.
    Referenced = 10,
    // A merge needs more than N records, or an insertion finds used = N.
    Full = 11,
    // The clock is 2^40 - 1.
    ClockSpent = 12,
    // A flag to be redone is 65,535.
    FlagSpent = 13,
    // A relation has more fields than the old form holds.
    TooManyFields = 14,
}

impl From<Refusal> for u64 {
    ghost from_gives = { λ r n. n ≡ refusal_number r };

    fn from(refusal: Refusal) -> u64 {
        refusal as u64
    }
}

// Which of two copies is ahead.
#[derive(Clone, Copy, Debug, PartialEq, Eq)]
pub enum Verdict {
    Alike = 1,
    FirstBehind = 2,
    SecondBehind = 3,
    Neither = 4,
}

impl From<Verdict> for u64 {
    ghost from_gives = { λ v n. n ≡ verdict_number v };

    fn from(verdict: Verdict) -> u64 {
        verdict as u64
    }
}

// The number of an answer in document 01: 0 for a call that is done.
pub fn number<T: Copy>(answer: Result<T, Refusal>) -> u64
    ensures { result ≡ number_of answer }
{
    answer.map_or_else(u64::from, |_| 0)
}

// The index that a walk gives or a lookup knows; 0 for none and in a refusal.
pub fn index(answer: Result<Option<usize>, Refusal>) -> usize
    ensures { result ≡ index_of answer }
{
    answer.ok().flatten().unwrap_or(0)
}
