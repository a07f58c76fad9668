// Theorems about the lane rules: what is read, what is left, where each answer is given, how many rounds are enough, and upstream's
// clauses. No code: the words of each claim stand in specs/, the theorem and its proof in proofs/.
#![tactic(auto)]
