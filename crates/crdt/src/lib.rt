// Labels, registers and flags: the parts that every table is made of.
#![tactic(auto)]

ghost use Rattle.std.specs.Prelude.{◌≡◌, not, ◌≤◌, ◌<◌, max, eqb, unwrap_or, is_some};
ghost use Rattle.crdt.specs.Labels.{is_label, label_within, counter_of, replica_of};
ghost use Rattle.crdt.specs.Flags.{largest_flag, deleted, redone};
ghost use Rattle.crdt.specs.Cells.{reg, join_reg, reg_changed};

// A label: counter × 256 + replica, or 0 for none.
#[derive(Clone, Copy)]
pub struct Label(pub u64);

impl Label {
    pub const LARGEST_COUNTER: u64 = 0xff_ffff_ffff;

    pub const LARGEST_REPLICA: u64 = 255;

    pub const NONE: Label = Label(0);

    // The label of a counter and a replica, or none where either is outside its limits.
    pub fn of(counter: u64, replica: u64) -> Label
        ensures { result.0 ≡ label_within counter replica }
    {
        let good = (1 <= counter)
            & (counter <= Label::LARGEST_COUNTER)
            & ((1 <= replica) & (replica <= Label::LARGEST_REPLICA));
        if good {
            return Label(counter * (Label::LARGEST_REPLICA + 1) + replica);
        }
        Label::NONE
    }

    // The counter of a label.
    pub fn counter(self) -> u64
        ensures { result ≡ counter_of self.0 }
    {
        self.0 / (Label::LARGEST_REPLICA + 1)
    }

    // The replica number of a label.
    pub fn replica(self) -> u64
        ensures { result ≡ replica_of self.0 }
    {
        self.0 % (Label::LARGEST_REPLICA + 1)
    }

    // Whether a number is a label; none is not.
    pub fn is_label(x: u64) -> bool
        ensures { result ≡ is_label x }
    {
        let counter = Label(x).counter();
        (1 <= counter) & (counter <= Label::LARGEST_COUNTER) & (1 <= Label(x).replica())
    }
}

// A value and its stamp, a label or none. Registers are in order by stamp, with equal stamps by value.
#[derive(Clone, Copy, Debug, PartialEq, Eq, PartialOrd, Ord)]
pub struct Register {
    pub stamp: u64,
    pub value: u64,
}

// The register with the larger stamp; with equal stamps the one with the larger value.
fn larger_register(a: Register, b: Register) -> Register
    ensures { reg result.value result.stamp ≡ join_reg (reg a.value a.stamp) (reg b.value b.stamp) }
{
    a.max(b)
}

// The join of register `a`, which was there before, with register `b`, if its value or stamp differs from before.
pub fn join_registers(a: Register, b: Register) -> Option<Register>
    ensures joined { let r = unwrap_or result a in reg r.value r.stamp ≡ join_reg (reg a.value a.stamp) (reg b.value b.stamp) }
    ensures changed { let r = unwrap_or result a in is_some result ≡ reg_changed (reg a.value a.stamp) (reg r.value r.stamp) }
{
    let register = larger_register(a, b);
    (register != a).then_some(register)
}

// The largest flag.
pub const LARGEST_FLAG: u64 = 65535;

// The larger of two flags, on 16 bits.
fn larger(a: u16, b: u16) -> u16
    ensures { result ≡ max a b }
{
    u16::max(a, b)
}

// The larger of two flags; a number above the largest flag gives the largest flag.
fn larger_flag(a: u64, b: u64) -> u64
    ensures flags { a ≤ largest_flag → b ≤ largest_flag → result ≡ max a b }
    ensures left_beyond { largest_flag < a → result ≡ largest_flag }
    ensures right_beyond { largest_flag < b → result ≡ largest_flag }
{
    if LARGEST_FLAG < a {
        return LARGEST_FLAG;
    }
    if LARGEST_FLAG < b {
        return LARGEST_FLAG;
    }
    u64::from(larger(a as u16, b as u16))
}

// The join of flag `a`, which was there before, with flag `b`, if it differs from before.
pub fn join_flags(a: u64, b: u64) -> Option<u64>
    ensures flags { a ≤ largest_flag → b ≤ largest_flag → unwrap_or result a ≡ max a b }
    ensures left_beyond { largest_flag < a → unwrap_or result a ≡ largest_flag }
    ensures right_beyond { largest_flag < b → unwrap_or result a ≡ largest_flag }
    ensures changed { is_some result ≡ not (eqb a (unwrap_or result a)) }
{
    let flag = larger_flag(a, b);
    (flag != a).then_some(flag)
}

// An even flag raised by 1; an odd one, and what is no flag, as it was.
pub fn delete(flag: u64) -> u64
    ensures { result ≡ deleted flag }
{
    if (flag % 2 == 0) & (flag < LARGEST_FLAG) {
        return flag + 1;
    }
    flag
}

// An odd flag raised by 1; an even one, 65,535 and what is no flag, as it was.
pub fn redo(flag: u64) -> u64
    ensures { result ≡ redone flag }
{
    if (flag % 2 == 1) & (flag < LARGEST_FLAG) {
        return flag + 1;
    }
    flag
}
