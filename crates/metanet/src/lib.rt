// A case and one METANET step with ALINEA ramps: their types. specs/ says what they mean, proofs/ has the theorems; there is no code here.
#![tactic(auto)]

// What stands in words is read into these structs as it is, a kind as a number and 0 for none: words may hold anything, are judged so, and the
// definitions go by these numbers.

// What a sign is set to: the limit in km/h, 0 where it is dark; compliance in thousandths with 500 added, 0 where it is dark.
#[derive(Clone, Copy)]
pub struct SignSetting {
    pub limit: u64,
    pub compliance: u64,
}

// A ramp: the kind of its setting (0 open, 1 fixed, 2 ALINEA) and its rate R in mv a step; of ALINEA the target in veh/km/lane, gain
// and least in mv, interval z in steps, the sum S of N in mv since the rate last moved and the number m of steps in it; each 0 where the
// setting is another.
#[derive(Clone, Copy)]
pub struct Ramp {
    pub kind: u64,
    pub rate: u64,
    pub target: u64,
    pub gain: u64,
    pub least: u64,
    pub interval: u64,
    pub sum: u64,
    pub summed: u64,
}

// What the last step let out of a segment, exit part included, in mv; the remainder b that this left, in parts of 3600 × L to the mv; and what it
// released from the queue, in mv.
#[derive(Clone, Copy)]
pub struct Flows {
    pub outflow: u64,
    pub remainder: u64,
    pub release: u64,
}

// A segment's part of a case: N and queue w in mv, sign, ramp, flows of the last step, speed v in m/h.
#[derive(Clone, Copy)]
pub struct SegmentState {
    pub count: u64,
    pub queue: u64,
    pub sign: SignSetting,
    pub ramp: Ramp,
    pub flows: Flows,
    pub speed: f64,
}

// What enters a segment: the mv passed on to it, the outflows of the segments that enter it, the sum of their outflow × v, how many
// they are, and v of the last of them.
#[derive(Clone, Copy)]
pub struct Entry {
    pub passed: u64,
    pub outflows: u64,
    pub weighted: f64,
    pub segments: u64,
    pub last: f64,
}

// What a step of one segment goes by beside its state: the mv passed on to it, the speed u at which vehicles enter, the density ρ'
// ahead, the desired speed V, and the most mv that its origin lets in.
#[derive(Clone, Copy)]
pub struct Neighbours {
    pub passed: u64,
    pub before: f64,
    pub after: f64,
    pub want: f64,
    pub bound: u64,
}

// One segment's state before the step: N, w, v, ρ, u and ρ'.
#[derive(Clone, Copy)]
pub struct Old {
    pub count: u64,
    pub queue: u64,
    pub speed: f64,
    pub density: f64,
    pub before: f64,
    pub after: f64,
}

// A sign is dark, or shows a speed in m/h: the paper's own form for it.
#[derive(Clone, Copy)]
pub enum Sign {
    Dark,
    Shown(f64),
}

// A ramp's setting: open, fixed at a rate in mv a step, or ALINEA with target in veh/km/lane, gain and least in mv, interval z in steps.
#[derive(Clone, Copy)]
pub enum Setting {
    Open,
    Fixed(u64),
    Alinea {
        target: u64,
        gain: u64,
        least: u64,
        interval: u64,
    },
}
