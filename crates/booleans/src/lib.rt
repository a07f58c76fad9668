// Cases on a test, and the few truths of Booleans that the laws of postings, of lanes and of buckets share. No code.
#![tactic(auto)]
