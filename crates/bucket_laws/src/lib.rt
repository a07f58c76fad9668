// Theorems about the bucket rules. No code.
#![tactic(auto)]
