// Laws that the code leaned on when it counted an index by hand and asked branch by branch. No function here, and no crate above: what they
// say of the definitions holds as it did, so it stays proved. A file for each crate that they speak of.
#![tactic(auto)]
