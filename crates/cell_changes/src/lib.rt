//! What an edit changes in a complex: the cells that go and those that come. The definitions stand in `specs/`.
#![tactic(auto)]
