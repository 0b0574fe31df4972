// Laws only: what the log program prints is the listing that 01 asks for, the plain list's replies a line each.

#![tactic(auto)]
