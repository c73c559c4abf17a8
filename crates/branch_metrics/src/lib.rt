// Branch metrics: the decisions on received points, and those on the coded bits put where the decoder wants them.
// Inner: its functions may require what the crates above have tested. docs/ARCHITECTURE.md names the public surface.
#![tactic(auto)]

pub mod depuncturing;
pub mod soft_decision;
