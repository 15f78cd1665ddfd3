// What is wrong with bytes that are no record, and where. A reader is told answer 9, whatever the
// fault.

// What is wrong; the definition `fault_number` has the number of each.
#[derive(Clone, Copy, Debug, PartialEq, Eq)]
pub enum FaultKind {
    // The bytes end within a field.
    Cut,
    // Another field than one that may stand here.
    OtherTag,
    // A length that is not the field's.
    OtherLength,
    // A number out of range, or not sound with what was read before.
    UnsoundNumber,
    // Bytes after the last field that may stand.
    Extra,
}

// The place is the input's length for a cut, else the first byte of the field, or of what is more.
#[derive(Clone, Copy, Debug, PartialEq, Eq)]
pub struct Fault {
    pub kind: FaultKind,
    pub at: usize,
}
