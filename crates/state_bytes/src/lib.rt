// States as bytes: the tables of their fields, with the laws of any such table. It has no code: the arrays are copied out of bytes by `common::array_at`.
// Inner: its functions may require what the crates above have tested. docs/ARCHITECTURE.md names the public surface.
#![tactic(auto)]
