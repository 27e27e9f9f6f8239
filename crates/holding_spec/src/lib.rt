// Definitions and theorems: the receiver that holds a packet. No function.
#![tactic(auto)]
