// What the calls on records that write a next field share: definitions and laws alone.
#![tactic(auto)]
