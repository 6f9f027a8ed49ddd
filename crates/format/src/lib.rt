// The network file: its types. specs/ says what the file means, proofs/ has the theorems about it; there is no code here.
#![tactic(auto)]

// These structs hold the numbers as a file or words of any content have them, 0 or 1 for an origin and 0 for none that follows: the rows
// judge them.

// The numbers of the head: the version, the step T in seconds, the number of segments n, the number of curves c, then τ in seconds,
// ν in km²/h, κ in veh/km/lane and δ in thousandths.
#[derive(Clone, Copy)]
pub struct Head {
    pub version: u64,
    pub step: u64,
    pub size: u64,
    pub curves: u64,
    pub tau: u64,
    pub nu: u64,
    pub kappa: u64,
    pub delta: u64,
}

// Where vehicles go on from a segment: the number of its first and of its second following segment, 0 for none, and the share to the
// first in thousandths.
#[derive(Clone, Copy, PartialEq, Eq)]
pub struct Following {
    pub first: u64,
    pub second: u64,
    pub share: u64,
}

// The numbers of a segment: its length L in metres, lanes H, the number of its curve, critical and jam density C and J in
// veh/km/lane, whether it has an origin, the exit share X in thousandths, the most mv that its origin releases in a step, Q, and what
// follows it.
#[derive(Clone, Copy)]
pub struct Segment {
    pub metres: u64,
    pub lanes: u64,
    pub curve: u64,
    pub critical: u64,
    pub jam: u64,
    pub origin: u64,
    pub exit: u64,
    pub most: u64,
    pub following: Following,
}
