// S-8: plain upwind beside the same steps with q not rounded, and the error between the two. There is no code here.
#![tactic(auto)]
