// The channels against the claimed ledger, with what is counted on the way.
ghost use Rattle.std.specs.Prelude.{◌≡◌, ◌&&◌};
ghost use Rattle.channelchecks.specs.FitReport.{report_if, channels_fit_together, ledger_fits};

use crate::totals;
use ledger::ruled::Ruled;
use rangechecks::disjoint;
use transfer::state::Transfer;

// What one pass over the channels finds, where they fit.
#[derive(Clone, Copy, Debug, PartialEq, Eq)]
pub struct FitReport {
    // The channels not unused.
    pub used: u64,
    // Those that have ended.
    pub ended: u64,
}

// With any ledger: it obeys its rule with no end above the file's length, each channel fits, and no two payloads share a byte that is still to come.
pub fn report_channels(t: Transfer, ledger: &[u64]) -> Option<FitReport>
    ensures { result ≡ report_if (ledger_fits t ledger.now && channels_fit_together t ledger.now) t }
{
    let ruled = Ruled::of(ledger, t.len)?;
    let totals = totals::check_channels(t, ruled)?;
    if !disjoint::all_disjoint(&totals.rests[..totals.payloads]) {
        return None;
    }
    Some(FitReport {
        used: totals.used,
        ended: totals.ended,
    })
}
