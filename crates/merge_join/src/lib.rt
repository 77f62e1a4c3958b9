// A record of the other table joined into one of the own, register by register and flag by flag, and whether that changed it.
#![tactic(auto)]

ghost use Rattle.std.specs.Prelude.{◌≡◌, ◌≤◌};
ghost use Rattle.crdt.specs.Flags.{largest_flag};
ghost use Rattle.model.specs.Layout.{fields, most_records, flag_at};
ghost use Rattle.merge_laws.specs.Absorb.{field_joined, fields_joined, flag_joined, record_joined, field_changed, fields_changed, flag_changed, record_changed};

// Joins field `f` of record `j` of the other table into that of record `i`. An unchanged one is not stored.
fn join_field(own: &mut [u64], i: usize, other: &[u64], j: usize, f: usize) -> bool
    requires { (i ≤ most_records) × (f ≤ fields) }
    ensures words { own.new ≡ field_joined own.old i other.now j f }
    ensures changed { result ≡ field_changed own.old i other.now j f }
{
    let old = crdt::Register {
        stamp: layout::stamp_at(own, i, f),
        value: layout::value_at(own, i, f),
    };
    let new = crdt::Register {
        stamp: layout::stamp_at(other, j, f),
        value: layout::value_at(other, j, f),
    };
    let Some(register) = crdt::join_registers(old, new) else {
        return false;
    };
    let at = layout::base(i) + (layout::HEAD_WORDS - 1);
    layout::store(own, at + f, register.value);
    layout::store(own, at + layout::FIELDS + f, register.stamp);
    true
}

fn join_fields(own: &mut [u64], i: usize, other: &[u64], j: usize) -> bool
    requires { i ≤ most_records }
    ensures words { own.new ≡ fields_joined fields own.old i other.now j }
    ensures changed { result ≡ fields_changed fields own.old i other.now j }
{
    let mut changed = false;
    for done in 0..layout::FIELDS {
        changed |= join_field(own, i, other, j, done + 1);
    }
    changed
}

fn join_flag(own: &mut [u64], i: usize, other: &[u64], j: usize) -> bool
    requires { (i ≤ most_records) × (flag_at own.old i ≤ largest_flag) × (flag_at other.now j ≤ largest_flag) }
    ensures words { own.new ≡ flag_joined own.old i other.now j }
    ensures changed { result ≡ flag_changed own.old i other.now j }
{
    let joined = crdt::join_flags(layout::flag_at(own, i), layout::flag_at(other, j));
    let Some(flag) = joined else {
        return false;
    };
    layout::store(own, layout::base(i) + layout::FLAG_WORD, flag);
    true
}

// Joins record `j` of the other table into record `i`: register by register and flag by flag. Whether one of them changed.
pub fn join(own: &mut [u64], i: usize, other: &[u64], j: usize) -> bool
    requires { (i ≤ most_records) × (flag_at own.old i ≤ largest_flag) × (flag_at other.now j ≤ largest_flag) }
    ensures words { own.new ≡ record_joined own.old i other.now j }
    ensures changed { result ≡ record_changed own.old i other.now j }
{
    let flag = join_flag(own, i, other, j);
    let fields = join_fields(own, i, other, j);
    flag | fields
}
