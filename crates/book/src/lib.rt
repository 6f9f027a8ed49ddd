// The calls on a study: the types of their answers. specs/ says what each call does, proofs/ has the theorems; there is no code here.
#![tactic(auto)]

use laws::Refusal;

// Figures of a case: steps taken; mv in segments, in queues, arrived and left; time spent in mv·s.
#[derive(Clone, Copy)]
pub struct CaseFigures {
    pub steps: u64,
    pub segments: u64,
    pub queues: u64,
    pub arrivals: u64,
    pub exits: u64,
    pub time: u64,
}

// Figures of a segment: N, the whole part s of v, the bits of v, queue w, last outflow, last release, R.
#[derive(Clone, Copy)]
pub struct SegmentFigures {
    pub count: u64,
    pub whole: u64,
    pub bits: u64,
    pub queue: u64,
    pub outflow: u64,
    pub release: u64,
    pub rate: u64,
}

// What a run comes to: how many rows it took, and what refused the next, if anything.
#[derive(Clone, Copy)]
pub struct Ran {
    pub taken: u64,
    pub stopped: Option<Refusal>,
}
