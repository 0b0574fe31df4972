// Laws only: a join as the code does it is the join that 01 asks for, over every layer that is numbered.

#![tactic(auto)]
