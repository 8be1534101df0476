// Document 01's channel session and document 02's sessions of wide records: what a run prints of their bytes, computed from the definitions. There is no code
// here.
#![tactic(auto)]
