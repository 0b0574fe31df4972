// Laws only: the two walks of a renumbering give the layer that 01 asks for.

#![tactic(auto)]
