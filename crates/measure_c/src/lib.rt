// What a benchmark in Rust links: each function of the crate `measure` under its name in the
// archive, with the same promise.
#![tactic(auto)]

ghost use Rattle.std.specs.Prelude.{◌≡◌};
ghost use Rattle.measure.specs.Steps.{last_result_of, RunsFresh};

// A run in one call: how many steps were done.
#[unsafe(no_mangle)]
pub extern "C" fn qm_run(count: u64, codes: &[u64], told: &mut [u64]) -> u64
    ensures { RunsFresh count codes.now told.old result told.new }
{
    measure::qm_run(count, codes, told)
}

// A call for each step, with the table by value: the last result.
#[unsafe(no_mangle)]
pub extern "C" fn qm_last_result(count: u64, codes: &[u64]) -> u64
    ensures { result ≡ last_result_of count codes.now }
{
    measure::qm_last_result(count, codes)
}
