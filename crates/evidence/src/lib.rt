// Evidence for the definitions and the promises, no code. The worked cases of document 01 that are marked (p): one table, and the statement that every
// row holds. Idle programs do not fit the promises: one that refuses everything, one answer for all, one that writes nothing, one that codes or gives
// the first packets and pretends after, one that invents its count. Each is a contradiction from a promise.
#![tactic(auto)]
