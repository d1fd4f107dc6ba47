// What the rules mean; there is no code here. See specs/.

#![tactic(auto)]
