// A case's totals: steps, arrivals, exits and time.
ghost use Rattle.std.specs.Prelude.{◌≡◌, ◌*◌, ◌≤◌, length, get_or};
ghost use Rattle.laws.specs.Sums.{sum_of};
ghost use Rattle.metanet.proofs.InWords.{totals_words};
ghost use Rattle.metanet.proofs.Ready.{TotalsOk};

// The arrivals of a step, summed.
#[tactic(auto, unfolding(laws::specs::Sums::sum_of))]
pub(crate) fn sum_arrivals(arrivals: &[u32]) -> u64
    requires { length arrivals.now ≤ 40 }
    ensures { let n = length arrivals.now in (result ≡ sum_of (λ i. get_or arrivals.now i 0) n) × (result ≤ 4294967296 * n) }
{
    let mut sum = 0;
    for d in arrivals {
        sum += u64::from(*d);
    }
    sum
}

// One step more, with what came, what left and the time spent.
#[tactic(auto, unfolding(metanet::proofs::InWords::totals_words))]
pub(crate) fn add_totals(w: &mut [u64], came: u64, left: u64, time: u64)
    requires w_len { (length w.old ≡ 8) × (came ≤ 1000000000000000000) × (left ≤ 1000000000000000000) × (time ≤ 1000000000000000000) }
    requires totals_ok { TotalsOk w.old 0 }
    ensures { w.new ≡ totals_words w.old came left time }
{
    w[0] += 1;
    w[1] += came;
    w[2] += left;
    w[3] += time;
}
