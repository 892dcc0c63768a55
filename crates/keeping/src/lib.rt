#![tactic(auto)]
// What a volume's steps keep: the rules of its image, and what its sectors hold.
