// The marked runs M1 to M12 of document 01, edges of a diary and a pair of boards for demand 3, on the definitions: all of it stands in
// specs/. They are a crate of their own because computing them takes longer than proving all that they are computed on.
#![tactic(auto)]
