// Steps from a fresh table on, for benchmarks from Rust: the table stays on this side.
#![tactic(auto)]

ghost use Rattle.std.specs.Prelude.{◌≡◌};
ghost use Rattle.measure.specs.Steps.{last_result_of, RunsFresh};

// A run in one call: how many steps were done.
pub fn qm_run(count: u64, codes: &[u64], told: &mut [u64]) -> u64
    ensures { RunsFresh count codes.now told.old result told.new }
{
    steps::run(table::fresh_table(count).table, codes, told).result
}

// A call for each step, with the table by value: the last result.
pub fn qm_last_result(count: u64, codes: &[u64]) -> u64
    ensures { result ≡ last_result_of count codes.now }
{
    let mut t = table::fresh_table(count).table;
    let mut last = 0;
    for three in codes.chunks_exact(3) {
        let Some(step) = steps::asked_by(three[0], three[1], three[2]) else {
            last = 0;
            continue;
        };
        let done = steps::step(t, step);
        t = done.table;
        last = done.result;
    }
    last
}
