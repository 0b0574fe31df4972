// Laws only: what the calls keep of a tally is the full count. No code.

#![tactic(auto)]
