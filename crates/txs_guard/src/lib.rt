//! Queries: the guards of an item grouped by shared slots, and the plain answer to each. So far definitions alone.
#![tactic(auto)]
