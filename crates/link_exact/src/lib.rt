// Laws only: on every table that passes inspection the code's link is the link by meaning.

#![tactic(auto)]
