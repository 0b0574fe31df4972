// Laws only: inspection says yes exactly when all six rules hold and the tally is true. No code.

#![tactic(auto)]
