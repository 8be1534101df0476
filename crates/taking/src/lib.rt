// What a field and a step record come to, in the run and in the host's call: definitions and laws alone.
#![tactic(auto)]
