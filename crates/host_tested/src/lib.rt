// What is found of a host's records: definitions and laws alone.
#![tactic(auto)]
