// S-8's error and S-11's own steps, of the steps on tables that a host in C makes, and their proofs. There is no code here.
#![tactic(auto)]
