// Laws only: on a table that passes inspection the outcome of a question is the naive answer on the plain tree.

#![tactic(auto)]
