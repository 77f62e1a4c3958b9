// The calls of the herd book as C functions (document 02, F-2). A slice is a pointer and a length; the answer is the number of document 01. No rule
// stands here.
#![tactic(auto)]

ghost use Rattle.std.specs.Prelude.{◌≡◌, [], ◌∷◌};
ghost use Rattle.model.specs.Calls.{insertion_number, insertion_label, insertion_table, insertion_delta};
ghost use Rattle.model.specs.Book.{groups, cows, robots, milkings, cleanings, treatments, book, change_number, change_table, change_delta, strike_number, strike_table, strike_delta, find_number, find_index};

// Entering a group for C: the answer's number; `label` becomes the label of the new record, 0 in a refusal.
#[unsafe(no_mangle)]
pub extern "C" fn book_enter_group(
    own: &mut [u64],
    delta: &mut [u64],
    number: u64,
    label: &mut u64,
) -> u64
    ensures answer { result ≡ insertion_number book own.old delta.old groups (number ∷ []) }
    ensures name { label.new ≡ insertion_label book own.old delta.old groups (number ∷ []) }
    ensures words { own.new ≡ insertion_table book own.old delta.old groups (number ∷ []) }
    ensures delta_words { delta.new ≡ insertion_delta book own.old delta.old groups (number ∷ []) }
{
    let answer = book_entries::enter_group(own, delta, number);
    *label = answer.unwrap_or(0);
    answers::number(answer)
}

// Changing a field of a group for C: the answer's number.
#[unsafe(no_mangle)]
pub extern "C" fn book_change_group(
    own: &mut [u64],
    delta: &mut [u64],
    index: usize,
    field: usize,
    value: u64,
) -> u64
    ensures answer { result ≡ change_number groups own.old delta.old index field value }
    ensures words { own.new ≡ change_table groups own.old delta.old index field value }
    ensures delta_words { delta.new ≡ change_delta groups own.old delta.old index field value }
{
    answers::number(book_edits::change(own, delta, book_schema::GROUP, index, field, value))
}

// Striking off a group for C: the answer's number.
#[unsafe(no_mangle)]
pub extern "C" fn book_strike_group(own: &mut [u64], delta: &mut [u64], index: usize) -> u64
    ensures answer { result ≡ strike_number groups own.old delta.old index }
    ensures words { own.new ≡ strike_table groups own.old delta.old index }
    ensures delta_words { delta.new ≡ strike_delta groups own.old delta.old index }
{
    answers::number(book_edits::strike(own, delta, book_schema::GROUP, index))
}

// Entering a cow for C: the answer's number; `label` becomes the label of the new record, 0 in a refusal.
#[unsafe(no_mangle)]
pub extern "C" fn book_enter_cow(
    own: &mut [u64],
    delta: &mut [u64],
    ear_tag: u64,
    transponder: u64,
    group: u64,
    label: &mut u64,
) -> u64
    ensures answer { result ≡ insertion_number book own.old delta.old cows (ear_tag ∷ transponder ∷ group ∷ []) }
    ensures name { label.new ≡ insertion_label book own.old delta.old cows (ear_tag ∷ transponder ∷ group ∷ []) }
    ensures words { own.new ≡ insertion_table book own.old delta.old cows (ear_tag ∷ transponder ∷ group ∷ []) }
    ensures delta_words { delta.new ≡ insertion_delta book own.old delta.old cows (ear_tag ∷ transponder ∷ group ∷ []) }
{
    let answer = book_entries::enter_cow(own, delta, ear_tag, transponder, group);
    *label = answer.unwrap_or(0);
    answers::number(answer)
}

// Changing a field of a cow for C: the answer's number.
#[unsafe(no_mangle)]
pub extern "C" fn book_change_cow(
    own: &mut [u64],
    delta: &mut [u64],
    index: usize,
    field: usize,
    value: u64,
) -> u64
    ensures answer { result ≡ change_number cows own.old delta.old index field value }
    ensures words { own.new ≡ change_table cows own.old delta.old index field value }
    ensures delta_words { delta.new ≡ change_delta cows own.old delta.old index field value }
{
    answers::number(book_edits::change(own, delta, book_schema::COW, index, field, value))
}

// Striking off a cow for C: the answer's number.
#[unsafe(no_mangle)]
pub extern "C" fn book_strike_cow(own: &mut [u64], delta: &mut [u64], index: usize) -> u64
    ensures answer { result ≡ strike_number cows own.old delta.old index }
    ensures words { own.new ≡ strike_table cows own.old delta.old index }
    ensures delta_words { delta.new ≡ strike_delta cows own.old delta.old index }
{
    answers::number(book_edits::strike(own, delta, book_schema::COW, index))
}

// Entering a robot for C: the answer's number; `label` becomes the label of the new record, 0 in a refusal.
#[unsafe(no_mangle)]
pub extern "C" fn book_enter_robot(
    own: &mut [u64],
    delta: &mut [u64],
    number: u64,
    label: &mut u64,
) -> u64
    ensures answer { result ≡ insertion_number book own.old delta.old robots (number ∷ []) }
    ensures name { label.new ≡ insertion_label book own.old delta.old robots (number ∷ []) }
    ensures words { own.new ≡ insertion_table book own.old delta.old robots (number ∷ []) }
    ensures delta_words { delta.new ≡ insertion_delta book own.old delta.old robots (number ∷ []) }
{
    let answer = book_entries::enter_robot(own, delta, number);
    *label = answer.unwrap_or(0);
    answers::number(answer)
}

// Changing a field of a robot for C: the answer's number.
#[unsafe(no_mangle)]
pub extern "C" fn book_change_robot(
    own: &mut [u64],
    delta: &mut [u64],
    index: usize,
    field: usize,
    value: u64,
) -> u64
    ensures answer { result ≡ change_number robots own.old delta.old index field value }
    ensures words { own.new ≡ change_table robots own.old delta.old index field value }
    ensures delta_words { delta.new ≡ change_delta robots own.old delta.old index field value }
{
    answers::number(book_edits::change(own, delta, book_schema::ROBOT, index, field, value))
}

// Striking off a robot for C: the answer's number.
#[unsafe(no_mangle)]
pub extern "C" fn book_strike_robot(own: &mut [u64], delta: &mut [u64], index: usize) -> u64
    ensures answer { result ≡ strike_number robots own.old delta.old index }
    ensures words { own.new ≡ strike_table robots own.old delta.old index }
    ensures delta_words { delta.new ≡ strike_delta robots own.old delta.old index }
{
    answers::number(book_edits::strike(own, delta, book_schema::ROBOT, index))
}

// Entering a milking for C: the answer's number; `label` becomes the label of the new record, 0 in a refusal.
#[unsafe(no_mangle)]
pub extern "C" fn book_enter_milking(
    own: &mut [u64],
    delta: &mut [u64],
    cow: u64,
    robot: u64,
    grams: u64,
    tenths: u64,
    minute: u64,
    label: &mut u64,
) -> u64
    ensures answer { result ≡ insertion_number book own.old delta.old milkings (cow ∷ robot ∷ grams ∷ tenths ∷ minute ∷ []) }
    ensures name { label.new ≡ insertion_label book own.old delta.old milkings (cow ∷ robot ∷ grams ∷ tenths ∷ minute ∷ []) }
    ensures words { own.new ≡ insertion_table book own.old delta.old milkings (cow ∷ robot ∷ grams ∷ tenths ∷ minute ∷ []) }
    ensures delta_words { delta.new ≡ insertion_delta book own.old delta.old milkings (cow ∷ robot ∷ grams ∷ tenths ∷ minute ∷ []) }
{
    let answer = book_entries::enter_milking(own, delta, cow, robot, grams, tenths, minute);
    *label = answer.unwrap_or(0);
    answers::number(answer)
}

// Changing a field of a milking for C: the answer's number.
#[unsafe(no_mangle)]
pub extern "C" fn book_change_milking(
    own: &mut [u64],
    delta: &mut [u64],
    index: usize,
    field: usize,
    value: u64,
) -> u64
    ensures answer { result ≡ change_number milkings own.old delta.old index field value }
    ensures words { own.new ≡ change_table milkings own.old delta.old index field value }
    ensures delta_words { delta.new ≡ change_delta milkings own.old delta.old index field value }
{
    answers::number(book_edits::change(own, delta, book_schema::MILKING, index, field, value))
}

// Striking off a milking for C: the answer's number.
#[unsafe(no_mangle)]
pub extern "C" fn book_strike_milking(own: &mut [u64], delta: &mut [u64], index: usize) -> u64
    ensures answer { result ≡ strike_number milkings own.old delta.old index }
    ensures words { own.new ≡ strike_table milkings own.old delta.old index }
    ensures delta_words { delta.new ≡ strike_delta milkings own.old delta.old index }
{
    answers::number(book_edits::strike(own, delta, book_schema::MILKING, index))
}

// Entering a cleaning for C: the answer's number; `label` becomes the label of the new record, 0 in a refusal.
#[unsafe(no_mangle)]
pub extern "C" fn book_enter_cleaning(
    own: &mut [u64],
    delta: &mut [u64],
    robot: u64,
    start: u64,
    end: u64,
    label: &mut u64,
) -> u64
    ensures answer { result ≡ insertion_number book own.old delta.old cleanings (robot ∷ start ∷ end ∷ []) }
    ensures name { label.new ≡ insertion_label book own.old delta.old cleanings (robot ∷ start ∷ end ∷ []) }
    ensures words { own.new ≡ insertion_table book own.old delta.old cleanings (robot ∷ start ∷ end ∷ []) }
    ensures delta_words { delta.new ≡ insertion_delta book own.old delta.old cleanings (robot ∷ start ∷ end ∷ []) }
{
    let answer = book_entries::enter_cleaning(own, delta, robot, start, end);
    *label = answer.unwrap_or(0);
    answers::number(answer)
}

// Changing a field of a cleaning for C: the answer's number.
#[unsafe(no_mangle)]
pub extern "C" fn book_change_cleaning(
    own: &mut [u64],
    delta: &mut [u64],
    index: usize,
    field: usize,
    value: u64,
) -> u64
    ensures answer { result ≡ change_number cleanings own.old delta.old index field value }
    ensures words { own.new ≡ change_table cleanings own.old delta.old index field value }
    ensures delta_words { delta.new ≡ change_delta cleanings own.old delta.old index field value }
{
    answers::number(book_edits::change(own, delta, book_schema::CLEANING, index, field, value))
}

// Striking off a cleaning for C: the answer's number.
#[unsafe(no_mangle)]
pub extern "C" fn book_strike_cleaning(own: &mut [u64], delta: &mut [u64], index: usize) -> u64
    ensures answer { result ≡ strike_number cleanings own.old delta.old index }
    ensures words { own.new ≡ strike_table cleanings own.old delta.old index }
    ensures delta_words { delta.new ≡ strike_delta cleanings own.old delta.old index }
{
    answers::number(book_edits::strike(own, delta, book_schema::CLEANING, index))
}

// Entering a treatment for C: the answer's number; `label` becomes the label of the new record, 0 in a refusal.
#[unsafe(no_mangle)]
pub extern "C" fn book_enter_treatment(
    own: &mut [u64],
    delta: &mut [u64],
    cow: u64,
    first: u64,
    last: u64,
    label: &mut u64,
) -> u64
    ensures answer { result ≡ insertion_number book own.old delta.old treatments (cow ∷ first ∷ last ∷ []) }
    ensures name { label.new ≡ insertion_label book own.old delta.old treatments (cow ∷ first ∷ last ∷ []) }
    ensures words { own.new ≡ insertion_table book own.old delta.old treatments (cow ∷ first ∷ last ∷ []) }
    ensures delta_words { delta.new ≡ insertion_delta book own.old delta.old treatments (cow ∷ first ∷ last ∷ []) }
{
    let answer = book_entries::enter_treatment(own, delta, cow, first, last);
    *label = answer.unwrap_or(0);
    answers::number(answer)
}

// Changing a field of a treatment for C: the answer's number.
#[unsafe(no_mangle)]
pub extern "C" fn book_change_treatment(
    own: &mut [u64],
    delta: &mut [u64],
    index: usize,
    field: usize,
    value: u64,
) -> u64
    ensures answer { result ≡ change_number treatments own.old delta.old index field value }
    ensures words { own.new ≡ change_table treatments own.old delta.old index field value }
    ensures delta_words { delta.new ≡ change_delta treatments own.old delta.old index field value }
{
    answers::number(book_edits::change(own, delta, book_schema::TREATMENT, index, field, value))
}

// Striking off a treatment for C: the answer's number.
#[unsafe(no_mangle)]
pub extern "C" fn book_strike_treatment(own: &mut [u64], delta: &mut [u64], index: usize) -> u64
    ensures answer { result ≡ strike_number treatments own.old delta.old index }
    ensures words { own.new ≡ strike_table treatments own.old delta.old index }
    ensures delta_words { delta.new ≡ strike_delta treatments own.old delta.old index }
{
    answers::number(book_edits::strike(own, delta, book_schema::TREATMENT, index))
}

// The search for a shown milking for C: the answer's number; `index` becomes the index of the milking, 0 where none is shown and in a refusal.
#[unsafe(no_mangle)]
pub extern "C" fn book_find_milking(table: &[u64], label: u64, index: &mut u64) -> u64
    ensures answer { result ≡ find_number table.now }
    ensures position { index.new ≡ find_index table.now label }
{
    let answer = book_find::find_milking(table, label);
    *index = answers::index(answer) as u64;
    answers::number(answer)
}
