// Document 02, S-12, joined to the calls: the cutting, the whole's plain step and the plain steps on its parts, by their promises. There is no code here.
#![tactic(auto)]
