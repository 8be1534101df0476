// Document 02, S-9: what a step on a lagoon becomes where cells and faces are numbered anew and faces turned round. There is no code here.
#![tactic(auto)]
