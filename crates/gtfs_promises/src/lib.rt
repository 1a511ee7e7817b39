// What request 1 promises, over the contracts of the reader and the writers alone: no code.
#![tactic(auto)]
