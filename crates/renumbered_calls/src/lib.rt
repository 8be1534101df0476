// Document 02, S-9, joined to the calls: two calls of the step on tables, and of the host on records, by their promises. There is no code here.
#![tactic(auto)]
