// What the calls on a field promise, and those of a board: definitions and laws alone.
#![tactic(auto)]
