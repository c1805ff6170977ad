// Whole numbers: identities of products, the order of products, sums and differences; numbers that are not 0. Lemmas alone.
#![tactic(auto)]
