// Definitions and theorems: the receiver of a text line. No function.
#![tactic(auto)]
