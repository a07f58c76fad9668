// A list of numbers that a caller lends for writing: what is written stands at its front and later places stay, and numbers go up in it
// to make room. No code.
#![tactic(auto)]
