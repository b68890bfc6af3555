// No code: the eight worked cases are claims about the definitions (specs/Worked.antt).
#![tactic(auto)]
