// What a run prints of the bytes that it reads, and that the program's calls in their order print it. There is no code here.
#![tactic(auto)]
