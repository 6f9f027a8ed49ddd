// One segment of a METANET step with ALINEA ramps.
#![tactic(auto)]

pub mod site; // site.rt: a segment as a step sees it, and what it passes on
mod ahead; // ahead.rt: the density ahead, the desired speed
mod bound; // bound.rt: what bounds an origin
pub mod entering; // entering.rt: what enters a segment
pub mod flow; // flow.rt: rates and flows, whole numbers
mod speed; // speed.rt: the new speed, binary64
mod state; // state.rt: the new state of a segment
