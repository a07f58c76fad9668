// Acceptance, what storage failures leave, right or withheld, and upstream's clauses, as theorems about the posting rules. No code:
// the words of each claim stand in specs/, the theorem and its proof in proofs/.
#![tactic(auto)]
