// Definitions: a journal's records, what they tell, and what a journal prints; and theorems about them. No code.
#![tactic(auto)]
