// Laws only: in a numbered layer p is a fat preorder numbering, the compressed step finds the compressed answer, and every row passes the row check.

#![tactic(auto)]
