//! Calibration curves for sorting heads and valve rows: the interface, the plain curves, the layers over
//! them, and knot tables.
//!
//! Nothing here allocates. `docs/curves.md` has the rules in words, `specs/` has them as definitions.

#![tactic(auto)]

pub mod band;
pub mod coordinate;
pub mod curve;
pub mod kind;
pub mod knot;
pub mod layer;
pub mod refusal;
pub mod root;
pub mod table;
pub mod theorems;
