// Definitions and theorems: the sender of a text line (RFC 4103, section 5). No function.
#![tactic(auto)]
