// What a deck's text is, line by line; there is no code here. See specs/.

#![tactic(auto)]
