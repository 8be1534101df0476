// The host's plain step and judging on step records that hold no releases, kinds 3 and 7: what they come to. There is no code here.
#![tactic(auto)]
