// The definition of each rule; there is no code here. See specs/.

#![tactic(auto)]
