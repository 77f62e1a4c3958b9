// The herd book's entries: for each kind of record a call that enters one. Each is the library's insertion under the herd book's schema.
#![tactic(auto)]

ghost use Rattle.std.specs.Prelude.{◌≡◌, [], ◌∷◌};
ghost use Rattle.answers.specs.Refused.{value_told};
ghost use Rattle.answers.specs.Told.{told};
ghost use Rattle.model.specs.Calls.{insertion_number, insertion_label, insertion_table, insertion_delta};
ghost use Rattle.model.specs.Book.{groups, cows, robots, milkings, cleanings, treatments, book};

use answers::Refusal;

// Enters a record of relation `kind`.
fn enter(own: &mut [u64], delta: &mut [u64], kind: usize, values: &[u64]) -> Result<u64, Refusal>
    ensures answer { value_told result ≡ told (insertion_number book own.old delta.old kind values.now) (insertion_label book own.old delta.old kind values.now) }
    ensures words { own.new ≡ insertion_table book own.old delta.old kind values.now }
    ensures delta_words { delta.new ≡ insertion_delta book own.old delta.old kind values.now }
{
    let schema = book_schema::schema();
    edits::insertion(&schema, own, delta, kind, values)
}

// Enters a group.
pub fn enter_group(own: &mut [u64], delta: &mut [u64], number: u64) -> Result<u64, Refusal>
    ensures answer { value_told result ≡ told (insertion_number book own.old delta.old groups (number ∷ [])) (insertion_label book own.old delta.old groups (number ∷ [])) }
    ensures words { own.new ≡ insertion_table book own.old delta.old groups (number ∷ []) }
    ensures delta_words { delta.new ≡ insertion_delta book own.old delta.old groups (number ∷ []) }
{
    enter(own, delta, book_schema::GROUP, &[number])
}

// Enters a cow; her group may be empty.
pub fn enter_cow(
    own: &mut [u64],
    delta: &mut [u64],
    ear_tag: u64,
    transponder: u64,
    group: u64,
) -> Result<u64, Refusal>
    ensures answer { value_told result ≡ told (insertion_number book own.old delta.old cows (ear_tag ∷ transponder ∷ group ∷ [])) (insertion_label book own.old delta.old cows (ear_tag ∷ transponder ∷ group ∷ [])) }
    ensures words { own.new ≡ insertion_table book own.old delta.old cows (ear_tag ∷ transponder ∷ group ∷ []) }
    ensures delta_words { delta.new ≡ insertion_delta book own.old delta.old cows (ear_tag ∷ transponder ∷ group ∷ []) }
{
    enter(own, delta, book_schema::COW, &[ear_tag, transponder, group])
}

// Enters a robot.
pub fn enter_robot(own: &mut [u64], delta: &mut [u64], number: u64) -> Result<u64, Refusal>
    ensures answer { value_told result ≡ told (insertion_number book own.old delta.old robots (number ∷ [])) (insertion_label book own.old delta.old robots (number ∷ [])) }
    ensures words { own.new ≡ insertion_table book own.old delta.old robots (number ∷ []) }
    ensures delta_words { delta.new ≡ insertion_delta book own.old delta.old robots (number ∷ []) }
{
    enter(own, delta, book_schema::ROBOT, &[number])
}

// Enters a milking: grams, tenths of a degree and minute.
pub fn enter_milking(
    own: &mut [u64],
    delta: &mut [u64],
    cow: u64,
    robot: u64,
    grams: u64,
    tenths: u64,
    minute: u64,
) -> Result<u64, Refusal>
    ensures answer { value_told result ≡ told (insertion_number book own.old delta.old milkings (cow ∷ robot ∷ grams ∷ tenths ∷ minute ∷ [])) (insertion_label book own.old delta.old milkings (cow ∷ robot ∷ grams ∷ tenths ∷ minute ∷ [])) }
    ensures words { own.new ≡ insertion_table book own.old delta.old milkings (cow ∷ robot ∷ grams ∷ tenths ∷ minute ∷ []) }
    ensures delta_words { delta.new ≡ insertion_delta book own.old delta.old milkings (cow ∷ robot ∷ grams ∷ tenths ∷ minute ∷ []) }
{
    enter(
        own,
        delta,
        book_schema::MILKING,
        &[cow, robot, grams, tenths, minute],
    )
}

// Enters a cleaning, with its start and end minute.
pub fn enter_cleaning(
    own: &mut [u64],
    delta: &mut [u64],
    robot: u64,
    start: u64,
    end: u64,
) -> Result<u64, Refusal>
    ensures answer { value_told result ≡ told (insertion_number book own.old delta.old cleanings (robot ∷ start ∷ end ∷ [])) (insertion_label book own.old delta.old cleanings (robot ∷ start ∷ end ∷ [])) }
    ensures words { own.new ≡ insertion_table book own.old delta.old cleanings (robot ∷ start ∷ end ∷ []) }
    ensures delta_words { delta.new ≡ insertion_delta book own.old delta.old cleanings (robot ∷ start ∷ end ∷ []) }
{
    enter(own, delta, book_schema::CLEANING, &[robot, start, end])
}

// Enters a treatment, with the first and the last withheld minute.
pub fn enter_treatment(
    own: &mut [u64],
    delta: &mut [u64],
    cow: u64,
    first: u64,
    last: u64,
) -> Result<u64, Refusal>
    ensures answer { value_told result ≡ told (insertion_number book own.old delta.old treatments (cow ∷ first ∷ last ∷ [])) (insertion_label book own.old delta.old treatments (cow ∷ first ∷ last ∷ [])) }
    ensures words { own.new ≡ insertion_table book own.old delta.old treatments (cow ∷ first ∷ last ∷ []) }
    ensures delta_words { delta.new ≡ insertion_delta book own.old delta.old treatments (cow ∷ first ∷ last ∷ []) }
{
    enter(own, delta, book_schema::TREATMENT, &[cow, first, last])
}
