// The whole link, from packets to symbols and back: what an unharmed one brings back, and how long a burst of wrong bytes may be for a receiver to give
// every packet all the same. Statements over the sender, the reader and the receiver, no code.
#![tactic(auto)]
