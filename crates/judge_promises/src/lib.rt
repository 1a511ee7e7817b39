// What is promised of `judge` and of `judge` with `solve`, over their contracts: no code.
#![tactic(auto)]
