//! What the builders and the moves answer, as what a net answers: lemmas.

#![tactic(auto)]
