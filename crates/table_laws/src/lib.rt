// Laws only: the lines, levels and roots of a table that passes inspection.

#![tactic(auto)]
