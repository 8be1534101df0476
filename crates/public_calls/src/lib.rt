// S-14's claim of the public page and the public board as C asks for them, and its proof. There is no code here.
#![tactic(auto)]
