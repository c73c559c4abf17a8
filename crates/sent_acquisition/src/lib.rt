// From symbols to packets: what a reading by a hypothesis gives of a sender's stream, cut at any symbol and turned. Statements over acquisition, no code.
#![tactic(auto)]
