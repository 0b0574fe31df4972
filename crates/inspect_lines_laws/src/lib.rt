// Laws only: the lines, levels and labels of a table as tests, and what the tests say. No code.

#![tactic(auto)]
