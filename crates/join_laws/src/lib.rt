// Laws only: a lone row joins under a row, as a relation between layers; the numbering is kept, and the renumbering is paid for.

#![tactic(auto)]
