// Document 02's S-13: the totals of a period, by steps as they were made and added. Definitions and theorems alone.
#![tactic(auto)]
