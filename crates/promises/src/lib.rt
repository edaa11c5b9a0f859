// The promises over bytes stand in specs/; there is no code here.
#![tactic(auto)]
