// That the code meets its contracts stands in specs/; there is no code here.
#![tactic(auto)]
