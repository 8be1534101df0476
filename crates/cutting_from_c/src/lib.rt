// S-12's claim of a lagoon cut and stepped by a host in C, and its proof. There is no code here.
#![tactic(auto)]
