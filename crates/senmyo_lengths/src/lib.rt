// No code: how many days each month of Senmyo has that the covered years need, by one computed test.
#![tactic(auto)]
