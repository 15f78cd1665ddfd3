// What the five rules did.
ghost use Rattle.std.specs.Prelude.{◌≡◌, ◌≤◌};
ghost use Rattle.rules.specs.Report.{no_report, rules_of, number_if_acted};

// Which of the five rules acted, the quantity of a slot opened and that of a token made.
#[derive(Clone, Copy)]
pub struct Report {
    pub rule1: bool,
    pub rule2: bool,
    pub rule3: bool,
    pub rule4: bool,
    pub rule5: bool,
    pub opened: u64,
    pub made: u64,
}

// No rule acted.
pub fn no_report() -> Report
    ensures { result ≡ no_report }
{
    Report {
        rule1: false,
        rule2: false,
        rule3: false,
        rule4: false,
        rule5: false,
        opened: 0,
        made: 0,
    }
}

fn weight(acted: bool, n: u64) -> u64
    ensures { (result ≡ number_if_acted acted n) × (result ≤ n) }
{
    if acted {
        return n;
    }
    0
}

// The rules that acted as one number: the sum of 1, 2, 4, 8, 16.
pub fn rules_of(report: Report) -> u64
    ensures { result ≡ rules_of report }
{
    weight(report.rule1, 1)
        + weight(report.rule2, 2)
        + weight(report.rule3, 4)
        + weight(report.rule4, 8)
        + weight(report.rule5, 16)
}
