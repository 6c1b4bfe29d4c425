// No code: histories of the entry points, and the theorems over them, in specs/ and proofs/.
#![tactic(auto)]
