// No code: a table read row by row, as the checks in code go, and the laws that lead from there to the rules' trees.
#![tactic(auto)]
