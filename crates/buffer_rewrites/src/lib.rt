//! Rewrites of allocations and of what uses them.
#![tactic(auto)]

mod allocations;
mod binding;
mod deleting;
mod expandable;
mod expanding;
mod found;
mod inners;
mod lifting;
mod memory;
mod missing;
mod parts;
mod stores;
mod whole;

pub use binding::BindingPart;
pub use deleting::DeletingBuffer;
pub use expanding::ExpandingDim;
pub use lifting::LiftingAlloc;
pub use memory::SettingMemory;
pub use parts::Form;
pub use stores::cell_under;
