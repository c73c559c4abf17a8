// The blocks of a whole list of packets, which a sender sends and a receiver takes: there is no code here.
#![tactic(auto)]
