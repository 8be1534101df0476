// Demand 3's budget of steps on records, by the figures that a host in C is told; and its proof. There is no code here.
#![tactic(auto)]
