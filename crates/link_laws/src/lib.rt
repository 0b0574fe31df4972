// Laws only: a tree linked under a row of another tree, as a relation between tables.

#![tactic(auto)]
