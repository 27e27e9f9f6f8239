// Definitions and theorems: reading and writing a packet (RFC 3550, RFC 2198, RFC 4103). No function.
#![tactic(auto)]
