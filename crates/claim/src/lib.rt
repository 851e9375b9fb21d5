// Layer 3: what holds after every list of commands. It is said in specs/ and proved in proofs/; there is no code here.
#![tactic(auto)]
