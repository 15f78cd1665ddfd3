// What a step hands back.
use crate::table::Table;
use rules::report::Report;

// The numbered answer, the result, the report, and the table as it then is.
#[derive(Clone, Copy)]
pub struct Stepped {
    pub answer: u8,
    pub result: u64,
    pub report: Report,
    pub table: Table,
}
