// From bits to packets: what the aligner and a fresh receiver for each lock give of a sender's stream. Statements over block_sync and lock_receiver, no code.
#![tactic(auto)]
