// Laws about the posting rules. No code: the theorems are in proofs/, and the layers of code and the history cite them.
#![tactic(auto)]
