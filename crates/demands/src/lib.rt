// A crate of theorems: the buyer's demands, over the definitions that the contracts cite.
#![tactic(auto)]
