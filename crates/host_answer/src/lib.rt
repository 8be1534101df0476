// What the calls from C answer: definitions and laws alone.
#![tactic(auto)]
