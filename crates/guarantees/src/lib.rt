// What the promises of the posting calls give together: the acceptance law, refusals and storage failures, right or withheld, of
// the calls themselves. No code: the words of each claim stand in specs/, the theorem and its proof in proofs/. A claim here speaks
// of results that a call returned and of lists that it left, and takes of them nothing but the call's own promise. Exported leads
// to these claims from what C and Rust get back, and says right or withheld, replays among it, of the numbers that they were told.
#![tactic(auto)]
