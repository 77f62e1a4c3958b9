// The herd book's changes and strikes, of any kind of record: the library's edits under its schema, with 6 also for a record of another kind.
#![tactic(auto)]

ghost use Rattle.std.specs.Prelude.{◌≡◌, ◌≢◌, cond, eqb, IfOk, IfErr};
ghost use Rattle.answers.specs.Refused.{refusal_number, done_told};
ghost use Rattle.answers.specs.Told.{told};
ghost use Rattle.model.specs.Layout.{relation_at};
ghost use Rattle.model.specs.Calls.{bad_index};
ghost use Rattle.model.specs.Book.{book, change_number, change_table, change_delta, strike_number, strike_table, strike_delta};
ghost use Rattle.edit_laws.specs.First.{first_number};

use answers::Refusal;

// Whether record `index` is of relation `kind`: of another kind checks 1 and 3 tell, then 6.
fn check_kind(own: &[u64], delta: &[u64], kind: usize, index: usize) -> Result<(), Refusal>
    ensures same { IfOk result (λ _. relation_at own.now index ≡ kind) }
    ensures other { IfErr result (λ x. (relation_at own.now index ≢ kind) × (refusal_number x ≡ cond (eqb (first_number (bad_index own.now index) book own.now delta.now) 0) 6 (first_number (bad_index own.now index) book own.now delta.now))) }
{
    if layout::relation_at(own, index) == kind {
        return Ok(());
    }
    let schema = book_schema::schema();
    edit_first::first_checks(&schema, own, delta, layout::bad_index(own, index))?;
    Err(Refusal::NotShown)
}

// Changes a field of record `index`, which is to be of relation `kind`.
pub fn change(
    own: &mut [u64],
    delta: &mut [u64],
    kind: usize,
    index: usize,
    field: usize,
    value: u64,
) -> Result<(), Refusal>
    ensures answer { done_told result ≡ told (change_number kind own.old delta.old index field value) 0 }
    ensures words { own.new ≡ change_table kind own.old delta.old index field value }
    ensures delta_words { delta.new ≡ change_delta kind own.old delta.old index field value }
{
    check_kind(own, delta, kind, index)?;
    let schema = book_schema::schema();
    edits::update(&schema, own, delta, index, field, value)
}

// Strikes off record `index`, which is to be of relation `kind`.
pub fn strike(own: &mut [u64], delta: &mut [u64], kind: usize, index: usize) -> Result<(), Refusal>
    ensures answer { done_told result ≡ told (strike_number kind own.old delta.old index) 0 }
    ensures words { own.new ≡ strike_table kind own.old delta.old index }
    ensures delta_words { delta.new ≡ strike_delta kind own.old delta.old index }
{
    check_kind(own, delta, kind, index)?;
    let schema = book_schema::schema();
    edits::deletion(&schema, own, delta, index)
}
