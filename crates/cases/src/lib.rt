// The cases K1 to K12 of docs/RULES.md, claimed of the promises: one list, one claim, no code.
#![tactic(auto)]
