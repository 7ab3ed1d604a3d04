// No code: the theorems on a rack of lines, over its calls' statements. They stand apart so that a wrong program of the rack is checked quickly.
#![tactic(auto)]
