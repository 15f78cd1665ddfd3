// What a call tells that hands back nothing else.
// The numbered answer and the result.
#[derive(Clone, Copy)]
pub struct Told {
    pub answer: u8,
    pub result: u64,
}
