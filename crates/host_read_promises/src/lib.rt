// What the readers and the writers of records promise: definitions and laws alone.
#![tactic(auto)]
