// Demand 3: the claim about every list of steps, keeps, drops and returns, and its proof. There is no code here.
#![tactic(auto)]
