// S-13's claims of a period's totals and of charges as a host in C makes them, and their proofs. There is no code here.
#![tactic(auto)]
