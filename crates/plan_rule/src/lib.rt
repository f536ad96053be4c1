#![tactic(auto)]

// The plan of a tree by the document's rule: definitions and laws. There is no code here.
