// A feed kept as a day file, and a day file's lines handed back: block by block, in fixed memory whatever the size.

#![tactic(auto)]

pub mod keep;
pub mod lists;
pub mod pass;
pub mod shelf;
pub mod store;
pub mod volume;
pub mod work;
