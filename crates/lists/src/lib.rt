// No code: what the other crates say of lists, in specs/, and its laws, in proofs/.
#![tactic(auto)]
