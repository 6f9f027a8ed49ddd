// What enters a segment, gathered from the segments that enter it, and what the speed makes of it.
ghost use Rattle.std.specs.Prelude.{◌≡◌, ◌≤◌, replicate};
ghost use Rattle.metanet.specs.Junction.{entry_speed, two_after};
ghost use Rattle.metanet.proofs.Entries.{no_entry, JoinOk, joined};
ghost use Rattle.segment.specs.Passing.{passed_on, PassingOk};

use crate::flow;
use format::Following;
use metanet::Entry;

// Nothing has entered any of the 41 numbers yet.
pub fn none_yet() -> [Entry; 41]
    ensures { result ≡ replicate 41 no_entry }
{
    let zero = case_words::whole(0);
    let none = Entry {
        passed: 0,
        outflows: 0,
        weighted: zero,
        segments: 0,
        last: zero,
    };
    [none; 41]
}

// One segment more: of its outflow out at speed v, amount enters.
pub fn join(e: Entry, amount: u64, out: u64, v: f64) -> Entry
    requires { JoinOk e amount out }
    ensures { result ≡ joined e amount out v }
{
    Entry {
        passed: e.passed + amount,
        outflows: e.outflows + out,
        weighted: e.weighted + case_words::whole(out) * v,
        segments: e.segments + 1,
        last: v,
    }
}

// A segment passes on: of its outflow at speed v, what passed goes to the first that follows it, or in part to each of two. Number 0 takes
// what is passed on to none.
#[tactic(auto, unfolding(crate::specs::Passing::passed_on))]
pub fn pass_on(entries: &mut [Entry; 41], following: Following, passed: u64, outflow: u64, v: f64)
    requires { PassingOk entries.old following passed outflow v }
    ensures { entries.new ≡ passed_on entries.old following passed outflow v }
{
    let first = following.first as usize;
    if following.second == 0 {
        entries[first] = join(entries[first], passed, outflow, v);
        return;
    }
    let part = flow::thousandths(passed, following.share);
    entries[first] = join(entries[first], part, outflow, v);
    let second = following.second as usize;
    entries[second] = join(entries[second], passed - part, outflow, v);
}

// u, of a segment at speed v.
#[tactic(auto, unfolding(metanet::specs::Junction::entry_speed))]
pub(crate) fn entry_speed(e: Entry, v: f64) -> f64
    requires { e.outflows ≤ 100000000000000 }
    ensures { result ≡ entry_speed e v }
{
    if e.segments == 0 {
        return v;
    }
    if e.segments == 1 {
        return e.last;
    }
    if e.outflows == 0 {
        return v;
    }
    e.weighted / case_words::whole(e.outflows)
}

// ρ' where there are two followers, of densities x and y.
#[tactic(auto, unfolding(metanet::specs::Junction::two_after))]
pub(crate) fn two_after(x: f64, y: f64) -> f64
    ensures { result ≡ two_after x y }
{
    let sum = x + y;
    let zero = case_words::whole(0);
    if sum == zero {
        return zero;
    }
    (x * x + y * y) / sum
}
