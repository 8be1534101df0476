// What adding and charging promise, and the calls on a store: definitions and laws alone.
#![tactic(auto)]
