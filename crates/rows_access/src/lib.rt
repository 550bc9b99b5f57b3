//! How the shadow's words of loads and stores are followed, one by one: the blocks of loads and
//! stores, the eight helpers that check an address, and the tails that find its place, of which the
//! one for stores makes a copy of a region where there is none. The rows stand in `specs`, and what
//! is so of them in `proofs`; how a row is read stands in `side_model`.
#![tactic(auto)]
