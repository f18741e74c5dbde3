// FIT: the tests that read least come first, but for the count, which needs the channels used.
ghost use Rattle.std.specs.Prelude.{◌≡◌, true, ℕ, ◌*◌, length};
ghost use Rattle.ledger.specs.Ledger.{obeys};
ghost use Rattle.transfer.specs.Fit.{claimed_fits, doubtful_fits};
ghost use Rattle.channelchecks.specs.FitReport.{report_if};
ghost use Rattle.checks.specs.ReportOf.{report_of, report_with_file};

use crate::numbers;
use channelchecks::report;
use channelchecks::report::FitReport;
use ledger::rule;
use rangechecks::nested;
use transfer::state::Transfer;

// The transfer and the claimed ledger, with what is counted on the way.
fn claimed_report(t: Transfer, claimed: &[u64]) -> Option<FitReport>
    ensures { result ≡ report_if (claimed_fits t claimed.now) t }
{
    if !numbers::pairs_fit(t.pairs, claimed.len()) || !numbers::fault_fits(t.fault, t.on) {
        return None;
    }
    let found = report::report_channels(t, claimed)?;
    numbers::count_fits(t.count, found.used).then_some(found)
}

// The doubtful ledger beside a claimed one that obeys its rule. One without a pair is read once, all zeros.
fn doubtful_fits(claimed: &[u64], doubtful: &[u64]) -> bool
    requires { obeys claimed.now ≡ true }
    ensures { (R : ℕ) → length claimed.now ≡ 2 * R → result ≡ doubtful_fits R claimed.now doubtful.now }
{
    doubtful.len() == claimed.len()
        && rule::obeys(doubtful, u64::MAX)
        && nested::all_inside(doubtful, claimed)
}

// All but the file's length, with what is counted on the way.
pub fn report(t: Transfer, claimed: &[u64], doubtful: &[u64]) -> Option<FitReport>
    ensures { result ≡ report_of t claimed.now doubtful.now }
{
    let found = claimed_report(t, claimed)?;
    doubtful_fits(claimed, doubtful).then_some(found)
}

// The whole of it, for a file of so many bytes.
#[tactic(auto, unfolding(crate::specs::ReportOf::report_with_file))]
pub fn report_with_file(
    t: Transfer,
    file: usize,
    claimed: &[u64],
    doubtful: &[u64],
) -> Option<FitReport>
    ensures { result ≡ report_with_file file t claimed.now doubtful.now }
{
    if file as u64 == t.len {
        report(t, claimed, doubtful)
    } else {
        None
    }
}
