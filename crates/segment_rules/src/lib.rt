// Layer 3: the rules of the segment. They stand in specs/, and there is no code here.
#![tactic(auto)]
