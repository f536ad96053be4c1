#![tactic(auto)]

// What a best answer is, and the certificate theorem: a spanning tree and a potential of equal weight. There is no code here.
