// Definitions and theorems: UTF-8 text (RFC 3629). No function.
#![tactic(auto)]
