// Document 02, S-12: a lagoon cut in two, and what a plain step on each part gives. There is no code here.
#![tactic(auto)]
