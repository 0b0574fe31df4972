// Laws only: the renumbering of a head as the code does it is the renumbering that 01 asks for, over any layer.

#![tactic(auto)]
