// Document 02, S-10, its last sentence, for calls on records: documents 01 and 02 as they were before it, and the proof that records of kinds 1 to 4 still get
// their
// answers. There is no code here.
#![tactic(auto)]
