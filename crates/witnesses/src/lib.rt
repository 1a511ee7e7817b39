// Worked networks, as words, that meet the hypotheses of the promises: no code.
#![tactic(auto)]
