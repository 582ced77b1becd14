// The cases on both sides of a line that are proved: a table in specs/, and its proof. There is no code.
#![tactic(auto)]
