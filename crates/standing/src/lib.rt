// Definitions: where a transcript stands between calls, and lists of calls; and theorems about them. No code.
#![tactic(auto)]
