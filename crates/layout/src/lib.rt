// Where each thing of a register lies in its words: definitions in specs/, laws in proofs/, no code.
#![tactic(auto)]
