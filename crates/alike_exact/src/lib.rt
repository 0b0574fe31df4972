// Laws only: on a table that passes inspection the outcome of alike is that of the naive lists of labels and of faces.

#![tactic(auto)]
