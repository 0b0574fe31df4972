// Laws only: in a numbered layer the stored answer is the nearest common ancestor and both branches.

#![tactic(auto)]
