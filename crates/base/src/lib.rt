// General definitions and laws: checks in their order, lists as arrays and as lent space. No function.
#![tactic(auto)]
