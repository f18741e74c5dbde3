// A range claimed: both ledgers are judged before either changes.
ghost use Rattle.std.specs.Prelude.{◌≡◌, true, ℕ, ◌*◌, ◌<◌, length};
ghost use Rattle.answers.specs.Refusal.{refusal_number};
ghost use Rattle.ledger.specs.Ledger.{obeys};
ghost use Rattle.transfer.specs.Fit.{doubtful_fits};
ghost use Rattle.headers.specs.ClaimRange.{ClaimResult};

use answers::refusal::Refusal;
use claims::claim;

// Stays: a struct of both ledgers, lent as `&mut`, would need a clause more here and in each caller: that its `claimed` and its `doubtful` keep
// their `ghost_name`. What is known of the ledgers comes from the clause of `apply_header`, which docs/PROMISES.md names.
// A range that a header asks for is claimed, or it has a fault. Where the ledgers fit: 17 by the claimed one, then 18 by either.
pub fn claim_range(
    start: u64,
    end: u64,
    doubt: bool,
    claimed: &mut [u64],
    doubtful: &mut [u64],
) -> Result<(), Refusal>
    requires { start < end }
    ensures { (R : ℕ) → obeys claimed.old ≡ true → length claimed.old ≡ 2 * R → doubtful_fits R claimed.old doubtful.old ≡ true → ClaimResult R start end doubt claimed.old doubtful.old (refusal_number result) claimed.new doubtful.new }
{
    let slot = claim::judge(claimed, start, end)?;
    if doubt {
        let other = claim::judge(doubtful, start, end)?;
        claim::put(claimed, slot, start, end);
        claim::put(doubtful, other, start, end);
    } else {
        claim::put(claimed, slot, start, end);
    }
    Ok(())
}
